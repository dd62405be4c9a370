//! The files and the streams of the system. That a file holds what was saved, and a read gives what a file holds, is trusted.
ghost use Rattle.std.specs.Prelude.{◌≡◌, ◌≤◌, None, IfOk, length};
ghost use Rattle.sdcv_base.specs.Hosts.{Prints, Counts, CountsOne};
ghost use Rattle.real_host.specs.Pieces.{Writes};

use crate::pieces::{Unread, read_all, write_piece};
use crate::read_paths::ReadPaths;
use crate::saves::{Unsaved, save_named};
use crate::tellings::Failure;
use sdcv_base::{Host, HostFault, ReadFault};
use std::alloc::Global;
use std::fs::File;
use std::io::{ErrorKind, Write};
use std::rt::Files;

/// A host that tells only how often it failed. What it tells on standard error begins with the program's name.
#[derive(Drop)]
pub struct RealHost<F, W, E> {
    alloc: Global,
    program: &'static str,
    files: F,
    out: W,
    err: E,
    read: ReadPaths,
    faults: u64,
}

impl<F: Files, W: Write, E: Write> RealHost<F, W, E> {
    /// Reads and saves through `files`, prints to `out`, and tells failures to `err`. It has not failed yet.
    pub fn new(alloc: Global, program: &'static str, files: F, out: W, err: E) -> Self
        ensures { result.faults ≡ 0 }
    {
        RealHost {
            alloc,
            program,
            files,
            out,
            err,
            read: ReadPaths::new(alloc),
            faults: 0,
        }
    }

    // A call failed: it is counted, where the count is not at its last value.
    fn count(&mut self)
        ensures count { CountsOne self.old.faults self.new.faults }
        ensures out { self.new.out ≡ self.old.out }
    {
        self.faults = self.faults.saturating_add(1);
    }

    // A call failed: it is counted and told. A line that can't be written is dropped.
    fn fail(&mut self, failure: Failure<'_>)
        ensures count { CountsOne self.old.faults self.new.faults }
        ensures out { self.new.out ≡ self.old.out }
    {
        self.count();
        let program = self.program;
        let _ = writeln!(self.err, "{program}: {failure}");
    }

    // A print failed. Where the reader of a pipe is gone, as after `| head`, nothing is told.
    fn fail_print(&mut self, kind: ErrorKind)
        ensures count { CountsOne self.old.faults self.new.faults }
        ensures out { self.new.out ≡ self.old.out }
    {
        if kind == ErrorKind::BrokenPipe {
            self.count();
        } else {
            self.fail(Failure::Print);
        }
    }
}

// The bytes of a file, which is one of those that were read from then on.
fn read_named<F: Files>(
    alloc: Global,
    files: &F,
    read: &mut ReadPaths,
    name: &str,
    limit: usize,
) -> Result<Vec<u8>, Unread>
    ensures { IfOk result (λ bytes. length bytes.items ≤ limit) }
{
    match File::open(files, name) {
        Ok(mut file) => {
            if read.add(files, name).is_err() {
                return Err(Unread::Memory);
            }
            read_all(alloc, &mut file, limit)
        }
        Err(e) => Err(Unread::System(e.kind())),
    }
}

impl<F: Files, W: Write, E: Write> Host for RealHost<F, W, E> {
    ghost files = { λ _. None };

    ghost asked = { λ _. None };

    ghost printed = { λ _. None };

    ghost saved = { λ _. None };

    ghost faults = { λ h. h.faults };

    fn read_file(&mut self, alloc: Global, name: &str, limit: usize) -> Result<Vec<u8>, ReadFault> {
        match read_named(alloc, &self.files, &mut self.read, name, limit) {
            Ok(bytes) => Ok(bytes),
            Err(Unread::System(kind)) => {
                self.fail(Failure::Read(name, kind));
                Err(ReadFault::Failed)
            }
            Err(Unread::TooLong) => Err(ReadFault::TooLong),
            Err(Unread::Memory) => Err(ReadFault::Memory),
        }
    }

    fn print(&mut self, piece: &[u8]) -> Result<(), HostFault>
        ensures printed { Prints None None piece.now result }
        ensures count { Counts self.old.faults self.new.faults result }
        ensures written { Writes (W.contents self.old.out) (W.contents self.new.out) piece.now result }
    {
        match write_piece(&mut self.out, piece) {
            Ok(()) => Ok(()),
            Err(e) => {
                self.fail_print(e.kind());
                Err(HostFault::Failed)
            }
        }
    }

    fn save(&mut self, name: &str, bytes: &[u8]) -> Result<(), HostFault> {
        match save_named(&self.files, self.alloc, &self.read, name, bytes) {
            Ok(()) => Ok(()),
            Err(Unsaved::WasRead) => {
                self.fail(Failure::SaveOver(name));
                Err(HostFault::Failed)
            }
            Err(Unsaved::System(error)) => {
                self.fail(Failure::Save(name, error.kind()));
                Err(HostFault::Failed)
            }
        }
    }
}
