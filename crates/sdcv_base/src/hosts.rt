//! What a run may do outside: read a file, print, save a file.
ghost use Rattle.std.specs.Prelude.{◌≡◌, ℕ, List, Option};
ghost use Rattle.sdcv_base.specs.Hosts.{Files, Reads, ReadCounts, asked_by, Prints, Counts, saved_by};

use std::alloc::Global;
use thiserror::Error;

/// Why a file was not read.
#[derive(Clone, Copy, Debug, PartialEq, Eq, Error)]
pub enum ReadFault {
    /// The host could not read it, or it is not there.
    #[error("the host could not read")]
    Failed,
    /// It has more bytes than the limit.
    #[error("the file is too long")]
    TooLong,
    #[error("out of memory")]
    Memory,
}

/// Why nothing was saved, or not all was printed.
#[derive(Clone, Copy, Debug, PartialEq, Eq, Error)]
pub enum HostFault {
    #[error("the host could not write")]
    Failed,
}

/// The host of a run. Each meaning but the count may be left untold, and no call changes which are told.
pub trait Host {
    /// What each name holds.
    ghost files: { Self → Option Files };

    /// The names that were read, in order.
    ghost asked: { Self → Option (List (List ℕ)) };

    /// The bytes that were printed.
    ghost printed: { Self → Option (List ℕ) };

    /// The names and bytes that were saved, in order.
    ghost saved: { Self → Option (List (List ℕ × List ℕ)) };

    /// How often a call has failed. It stops at 2^64 - 1.
    ghost faults: { Self → ℕ };

    /// All bytes of a file, where there are at most `limit`.
    fn read_file(&mut self, alloc: Global, name: &str, limit: usize) -> Result<Vec<u8>, ReadFault>
        ensures answer { Reads (files self.old) name.now limit result }
        ensures asked { asked self.new ≡ asked_by (asked self.old) name.now result }
        ensures count { ReadCounts (faults self.old) (faults self.new) result }
        ensures files { files self.new ≡ files self.old }
        ensures printed { printed self.new ≡ printed self.old }
        ensures saved { saved self.new ≡ saved self.old };

    /// Prints the piece, or after a failure a front of it.
    fn print(&mut self, piece: &[u8]) -> Result<(), HostFault>
        ensures printed { Prints (printed self.old) (printed self.new) piece.now result }
        ensures count { Counts (faults self.old) (faults self.new) result }
        ensures files { files self.new ≡ files self.old }
        ensures asked { asked self.new ≡ asked self.old }
        ensures saved { saved self.new ≡ saved self.old };

    /// Saves the bytes under the name, or after a failure nothing.
    fn save(&mut self, name: &str, bytes: &[u8]) -> Result<(), HostFault>
        ensures saved { saved self.new ≡ saved_by (saved self.old) name.now bytes.now result }
        ensures count { Counts (faults self.old) (faults self.new) result }
        ensures files { files self.new ≡ files self.old }
        ensures asked { asked self.new ≡ asked self.old }
        ensures printed { printed self.new ≡ printed self.old };
}
