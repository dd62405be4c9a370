//! The files that were read, by their canonical paths.
use std::alloc::{AllocError, Global};
use std::io;
use std::io::ErrorKind;
use std::rt::Files;

/// The canonical path of each file that was read in this run. What has none, as a pipe, is not among them.
#[derive(Drop)]
pub struct ReadPaths {
    alloc: Global,
    paths: Vec<String>,
}

impl ReadPaths {
    /// No file was read yet.
    pub fn new(alloc: Global) -> ReadPaths {
        ReadPaths {
            alloc,
            paths: Vec::new(alloc),
        }
    }

    /// Adds the file that stands under the name.
    pub fn add<F: Files>(&mut self, files: &F, name: &str) -> Result<(), AllocError> {
        match files.canonicalize(self.alloc, name) {
            Ok(path) => {
                self.paths.push(path.into_string())?;
                Ok(())
            }
            Err(e) if e.kind() == ErrorKind::OutOfMemory => Err(AllocError),
            Err(_) => Ok(()),
        }
    }

    /// Whether the file that stands under the name was read.
    pub fn contains<F: Files>(&self, files: &F, name: &str) -> io::Result<bool> {
        match files.canonicalize(self.alloc, name) {
            Ok(path) => Ok(self.paths.iter().any(|read| read.as_str() == path.as_str())),
            Err(e) if e.kind() == ErrorKind::OutOfMemory => Err(e),
            Err(_) => Ok(false),
        }
    }
}
