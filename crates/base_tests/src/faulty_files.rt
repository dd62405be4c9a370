//! The files of the system, of which one step fails.
ghost use Rattle.std.specs.Io.{ReadsAtMost, WritesAtMost};

use std::alloc::Allocator;
use std::fs::{Metadata, OpenFile, OpenOptions, Permissions};
use std::io;
use std::io::{ErrorKind, Read, Seek, SeekFrom, Write};
use std::path::PathBuf;
use std::rt::Files;

/// The step that fails.
#[derive(Clone, Copy, Debug, PartialEq, Eq)]
pub enum Step {
    /// The second write: the first takes 4,096 bytes at most.
    Write,
    /// What comes before a close.
    Sync,
    Rename,
}

/// The files of `files`, but for the step that fails.
#[derive(Drop)]
pub struct FaultyFiles<F> {
    pub files: F,
    pub step: Step,
}

/// An open file of them.
#[derive(Drop)]
pub struct FaultyFile<O> {
    file: O,
    step: Step,
    writes: u8,
}

impl<F: Files> Files for FaultyFiles<F> {
    type File = FaultyFile<F::File>;

    type Dir = F::Dir;

    fn open_file(&self, how: &OpenOptions, path: &str) -> io::Result<FaultyFile<F::File>> {
        let file = self.files.open_file(how, path)?;
        Ok(FaultyFile {
            file,
            step: self.step,
            writes: 0,
        })
    }

    fn open_dir(&self, path: &str) -> io::Result<F::Dir> {
        self.files.open_dir(path)
    }

    fn metadata(&self, path: &str) -> io::Result<Metadata> {
        self.files.metadata(path)
    }

    fn symlink_metadata(&self, path: &str) -> io::Result<Metadata> {
        self.files.symlink_metadata(path)
    }

    fn copy(&self, from: &str, to: &str) -> io::Result<u64> {
        self.files.copy(from, to)
    }

    fn rename(&self, from: &str, to: &str) -> io::Result<()> {
        if self.step == Step::Rename {
            return Err(io::Error::from(ErrorKind::PermissionDenied));
        }
        self.files.rename(from, to)
    }

    fn remove_file(&self, path: &str) -> io::Result<()> {
        self.files.remove_file(path)
    }

    fn create_dir(&self, path: &str) -> io::Result<()> {
        self.files.create_dir(path)
    }

    fn remove_dir(&self, path: &str) -> io::Result<()> {
        self.files.remove_dir(path)
    }

    fn remove_dir_all<B: Allocator>(&self, alloc: B, path: &str) -> io::Result<()> {
        self.files.remove_dir_all(alloc, path)
    }

    fn canonicalize<B: Allocator>(&self, alloc: B, path: &str) -> io::Result<PathBuf<B>> {
        self.files.canonicalize(alloc, path)
    }

    fn read_link<B: Allocator>(&self, alloc: B, path: &str) -> io::Result<PathBuf<B>> {
        self.files.read_link(alloc, path)
    }
}

impl<O: Read> Read for FaultyFile<O> {
    fn read(&mut self, buf: &mut [u8]) -> io::Result<usize> {
        self.file.read(buf)
    }
}

impl<O: Write> Write for FaultyFile<O> {
    fn write(&mut self, buf: &[u8]) -> io::Result<usize> {
        if self.step != Step::Write {
            return self.file.write(buf);
        }
        if self.writes > 0 {
            return Err(io::Error::from(ErrorKind::StorageFull));
        }
        self.writes = 1;
        self.file.write(&buf[..buf.len().min(4096)])
    }

    fn flush(&mut self) -> io::Result<()> {
        self.file.flush()
    }
}

impl<O: Seek> Seek for FaultyFile<O> {
    fn seek(&mut self, to: SeekFrom) -> io::Result<u64> {
        self.file.seek(to)
    }
}

impl<O: OpenFile> OpenFile for FaultyFile<O> {
    fn metadata(&self) -> io::Result<Metadata> {
        self.file.metadata()
    }

    fn set_len(&self, size: u64) -> io::Result<()> {
        self.file.set_len(size)
    }

    fn sync_all(&self) -> io::Result<()> {
        if self.step == Step::Sync {
            return Err(io::Error::from(ErrorKind::QuotaExceeded));
        }
        self.file.sync_all()
    }

    fn sync_data(&self) -> io::Result<()> {
        self.file.sync_data()
    }

    fn set_permissions(&self, perm: Permissions) -> io::Result<()> {
        self.file.set_permissions(perm)
    }
}
