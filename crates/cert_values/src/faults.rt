//! Why a certificate is refused.
use rup_check::CheckFault;
use std::alloc::{AllocError, AllocFailed};
use thiserror::Error;

/// Why a certificate is refused. Offsets of bytes count from 0, places of kept clauses and numbers of pairs from 1.
#[derive(Clone, Copy, Debug, Drop, Error, PartialEq, Eq)]
pub enum CertFault {
    /// The line at that offset is none with which a certificate goes on; or the bytes end there, early.
    #[error("byte {0}: not as a certificate goes on")]
    Form(usize),
    /// The first line spells that version, which is not read.
    #[error("version {0} of certificates is not read")]
    Version(u64),
    /// The kept clause at that place names a register that the design does not have.
    #[error("kept clause {0}: no such register")]
    UnknownRegister(usize),
    /// No claim has that number.
    #[error("pair {0}: no such claim")]
    UnknownPair(u64),
    /// The pair of that number is listed twice.
    #[error("pair {0}: listed twice")]
    TwicePair(u64),
    /// What is told of the pair of that number is not of its kind: the claim judges a capture or none, or its start may toggle.
    #[error("pair {0}: not so by its kind")]
    NotTrivial(u64),
    /// A derivation of the kept clause at that place does not refute its query.
    #[error("kept clause {0}: {1}")]
    Invariant(usize, CheckFault),
    /// A derivation of the pair of that number does not refute its query.
    #[error("pair {0}: {1}")]
    Pair(u64, CheckFault),
    #[error("out of memory")]
    Memory,
}

impl From<AllocError> for CertFault {
    ghost use Rattle.std.specs.Prelude.{◌≡◌};
    ghost use Rattle.cert_values.specs.declared.faults.CertFault.TheVariants.{Memory};

    ghost from_gives = { λ _ e. e ≡ Memory };

    fn from(_: AllocError) -> CertFault {
        CertFault::Memory
    }
}

impl<T: Drop> From<AllocFailed<T>> for CertFault {
    ghost use Rattle.std.specs.Prelude.{◌≡◌};
    ghost use Rattle.cert_values.specs.declared.faults.CertFault.TheVariants.{Memory};

    ghost from_gives = { λ _ e. e ≡ Memory };

    fn from(_: AllocFailed<T>) -> CertFault {
        CertFault::Memory
    }
}
