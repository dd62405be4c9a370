//! The files of a session.
use sdcv_base::{Fail, FileRec, MemHost, Name};
use std::alloc::{AllocError, Global};

/// The room of a host for what it prints.
const ROOM: usize = 65_536;

/// The files that stand, and the failure that is planned for the next call.
#[derive(Drop)]
pub struct Session {
    alloc: Global,
    files: Vec<FileRec>,
    /// The last file has the lines that follow.
    is_open: bool,
    fail: Option<Fail>,
}

impl Session {
    /// No file stands yet.
    pub fn new(alloc: Global) -> Session {
        Session {
            alloc,
            files: Vec::new(alloc),
            is_open: false,
            fail: None,
        }
    }

    pub fn alloc(&self) -> Global {
        self.alloc
    }

    /// Whether lines that follow go to a file.
    pub fn is_open(&self) -> bool {
        self.is_open
    }

    /// The lines that follow go to no file.
    pub fn close(&mut self) {
        self.is_open = false;
    }

    /// The bytes are the file of that name from now on, and lines that follow go to it.
    pub fn open(&mut self, name: &[u8], bytes: &[u8]) -> Result<(), AllocError> {
        self.files.retain(|file| file.name.as_bytes() != name);
        self.files.push(file_of(self.alloc, name, bytes)?)?;
        self.is_open = true;
        Ok(())
    }

    /// The last file has these bytes next.
    pub fn add(&mut self, bytes: &[u8]) -> Result<(), AllocError> {
        if let Some(file) = self.files.last_mut() {
            file.bytes.extend_from_slice(bytes)?;
        }
        Ok(())
    }

    /// The bytes of a file; none where no such file stands.
    pub fn bytes(&self, name: &str) -> &[u8] {
        for file in &self.files {
            if file.name.as_bytes() == name.as_bytes() {
                return &file.bytes;
            }
        }
        &[]
    }

    /// The step of that number of the next call fails.
    pub fn plan(&mut self, call: u64) {
        self.fail = Some(Fail { call, taken: 2 });
    }

    /// A host with all files, and with the planned failure, which is planned no more.
    pub fn host(&mut self) -> Result<MemHost, AllocError> {
        let fail = self.fail.take();
        let files = copies_of(self.alloc, &self.files)?;
        let fails = Vec::from_slice(self.alloc, fail.as_slice())?;
        MemHost::new(self.alloc, files, fails, ROOM)
    }

    /// What a host printed is the file `printed` from now on, and what it saved stands under its name.
    pub fn keep(&mut self, host: &MemHost) -> Result<(), AllocError> {
        self.open(b"printed", host.printed())?;
        for file in host.saved() {
            self.open(file.name.as_bytes(), &file.bytes)?;
        }
        self.close();
        Ok(())
    }
}

fn file_of(alloc: Global, name: &[u8], bytes: &[u8]) -> Result<FileRec, AllocError> {
    let name = Name::new(alloc, name)?;
    let bytes = Vec::from_slice(alloc, bytes)?;
    Ok(FileRec { name, bytes })
}

fn copies_of(alloc: Global, files: &[FileRec]) -> Result<Vec<FileRec>, AllocError> {
    let mut copies = Vec::new(alloc);
    for file in files {
        copies.push(file_of(alloc, file.name.as_bytes(), &file.bytes)?)?;
    }
    Ok(copies)
}
