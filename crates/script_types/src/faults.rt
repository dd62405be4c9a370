//! Why a text is no script.
ghost use Rattle.std.specs.Prelude.{◌≡◌};
ghost use Rattle.script_types.specs.declared.faults.SdcFault.TheVariants as fault;

use sdcv_base::Name;
use std::alloc::{AllocError, AllocFailed};
use thiserror::Error;

/// Why a text is no script. Lines count from 1, offsets count bytes from 0.
#[derive(Debug, Drop, Error)]
pub enum SdcFault {
    /// The text breaks the rules of words or of lists there.
    #[error("byte {0}: no SDC command goes on like this")]
    Syntax(usize),
    /// The command on that line, or one within its brackets, has this name.
    #[error("line {0}: {1} is no command")]
    UnknownCommand(u64, Name),
    /// The command on that line takes the value of this variable, which is not set.
    #[error("line {0}: {1} is no variable")]
    UnknownVariable(u64, Name),
    /// The command on that line has this word too many, or this option lacks its word, or the command of this name lacks one.
    #[error("line {0}: the word {1} is not taken there")]
    BadOption(u64, Name),
    /// The command on that line has this word where a number is wanted.
    #[error("line {0}: {1} is no such number")]
    BadNumber(u64, Name),
    #[error("out of memory")]
    Memory,
    /// A brace or a bracket stands there within 256 others.
    #[error("byte {0}: too many braces and brackets are open")]
    Deep(usize),
}

impl From<AllocError> for SdcFault {
    ghost from_gives = { λ _ e. e ≡ fault.Memory };

    fn from(_: AllocError) -> SdcFault {
        SdcFault::Memory
    }
}

impl<T: Drop> From<AllocFailed<T>> for SdcFault {
    ghost from_gives = { λ _ e. e ≡ fault.Memory };

    fn from(_: AllocFailed<T>) -> SdcFault {
        SdcFault::Memory
    }
}
