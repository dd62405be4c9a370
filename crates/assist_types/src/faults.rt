//! Why a text has no clauses over the registers of a design.
ghost use Rattle.std.specs.Prelude.{◌≡◌};
ghost use Rattle.assist_types.specs.declared.faults.AssistFault.TheVariants as fault;

use sdcv_base::Name;
use std::alloc::{AllocError, AllocFailed};
use thiserror::Error;

/// Why a text has no clauses over the registers of a design. Lines count from 1.
#[derive(Debug, Drop, Error)]
pub enum AssistFault {
    /// A word of that line is not `NAME=0` or `NAME=1`.
    #[error("line {0}: a word that is not NAME=0 or NAME=1")]
    Syntax(u64),
    /// Two words of that line have this name, with one value or with two.
    #[error("line {0}: the name {1} stands twice")]
    Twice(u64, Name),
    /// There are more clauses than the limit. The number is the limit plus 1.
    #[error("limit of clauses: {0}")]
    Many(u64),
    #[error("out of memory")]
    Memory,
    /// That line has this name, and no cell with a register has it as its full name.
    #[error("line {0}: no register {1}")]
    UnknownRegister(u64, Name),
}

impl From<AllocError> for AssistFault {
    ghost from_gives = { λ _ e. e ≡ fault.Memory };

    fn from(_: AllocError) -> AssistFault {
        AssistFault::Memory
    }
}

impl<T: Drop> From<AllocFailed<T>> for AssistFault {
    ghost from_gives = { λ _ e. e ≡ fault.Memory };

    fn from(_: AllocFailed<T>) -> AssistFault {
        AssistFault::Memory
    }
}
