//! Saves. A regular file is replaced whole: the bytes go to a new file beside it, which then takes its name. What is no
//! regular file, as a device or a pipe, is written as it is: a rename would put a file in its place.
ghost use Rattle.real_host.specs.Pieces.{Writes};

use crate::pieces::write_piece;
use crate::read_paths::ReadPaths;
use std::alloc::Global;
use std::fs::{OpenFile, OpenOptions, Permissions};
use std::io;
use std::io::{ErrorKind, Write};
use std::path::PathBuf;
use std::rt::Files;

/// Why nothing was saved.
#[derive(Drop)]
pub enum Unsaved {
    /// The file was read in this run.
    WasRead,
    System(io::Error),
}

impl From<io::Error> for Unsaved {
    fn from(error: io::Error) -> Unsaved {
        Unsaved::System(error)
    }
}

/// Where the bytes of a save go.
enum Target<O> {
    /// It is open, and no regular file.
    Device(O),
    /// The place of a regular file, with the rights of the one that stands there.
    Place(PathBuf, Option<Permissions>),
}

/// How many symbolic links may lead to a file.
const LINKS: u32 = 40;

/// Saves the bytes under the name. After a failure a regular file that stood there still stands.
pub fn save_named<F: Files>(
    files: &F,
    alloc: Global,
    read: &ReadPaths,
    name: &str,
    bytes: &[u8],
) -> Result<(), Unsaved> {
    if read.contains(files, name)? {
        return Err(Unsaved::WasRead);
    }
    match target_of(files, alloc, name)? {
        Target::Device(mut file) => write_piece(&mut file, bytes)?,
        Target::Place(place, rights) => {
            let part = part_of(alloc, place.as_str())?;
            if read.contains(files, part.as_str())? {
                return Err(Unsaved::System(io::Error::from(ErrorKind::AlreadyExists)));
            }
            replace(files, place.as_str(), part.as_str(), rights, bytes)?;
        }
    }
    Ok(())
}

// What the name stands for. Nothing is made or changed yet.
fn target_of<F: Files>(files: &F, alloc: Global, name: &str) -> io::Result<Target<F::File>> {
    match OpenOptions::new().write(true).open(files, name) {
        Ok(file) => {
            let there = file.metadata()?;
            if there.is_file() {
                let place = files.canonicalize(alloc, name)?;
                Ok(Target::Place(place, Some(there.permissions())))
            } else {
                Ok(Target::Device(file))
            }
        }
        Err(e) if e.kind() == ErrorKind::NotFound => {
            Ok(Target::Place(new_place(files, alloc, name)?, None))
        }
        Err(e) => Err(e),
    }
}

// The place of a file that is not there yet: where the links of that name lead, if it is one.
fn new_place<F: Files>(files: &F, alloc: Global, name: &str) -> io::Result<PathBuf> {
    let mut place = PathBuf::from_str(alloc, name)?;
    for _ in 0..LINKS {
        match files.read_link(alloc, place.as_str()) {
            Ok(next) => {
                place.pop();
                place.push(next)?;
            }
            Err(e) if e.kind() == ErrorKind::OutOfMemory => return Err(e),
            Err(_) => return Ok(place),
        }
    }
    Err(io::Error::from(ErrorKind::FilesystemLoop))
}

// The name of the new file beside a place.
fn part_of(alloc: Global, place: &str) -> io::Result<String> {
    Ok(format!(in alloc; "{place}.sdcv-part")?)
}

// Puts the bytes into the file `part`, which then takes the place. After a failure it is gone.
fn replace<F: Files>(
    files: &F,
    place: &str,
    part: &str,
    rights: Option<Permissions>,
    bytes: &[u8],
) -> io::Result<()> {
    // A run that was killed may have left one.
    let _ = files.remove_file(part);
    let mut file = OpenOptions::new()
        .write(true)
        .create_new(true)
        .open(files, part)?;
    let filled = fill(&mut file, rights, bytes);
    match filled.and_then(|()| files.rename(part, place)) {
        Ok(()) => Ok(()),
        Err(e) => {
            let _ = files.remove_file(part);
            Err(e)
        }
    }
}

// Writes all bytes to a new file, which gets the rights first. What the system still holds back goes to the file too, so
// a close has nothing left to fail with.
fn fill<O: Write + OpenFile>(
    file: &mut O,
    rights: Option<Permissions>,
    bytes: &[u8],
) -> io::Result<()>
    ensures { Writes (O.contents file.old) (O.contents file.new) bytes.now result }
{
    if let Some(rights) = rights {
        file.set_permissions(rights)?;
    }
    write_piece(file, bytes)?;
    file.sync_all()
}
