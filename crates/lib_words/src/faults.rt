//! Why a text is no group tree.
ghost use Rattle.std.specs.Prelude.{◌≡◌};
ghost use Rattle.lib_words.specs.declared.faults.GroupFault.TheVariants as fault;

use std::alloc::{AllocError, AllocFailed};
use thiserror::Error;

/// Why a text is no group tree. Offsets count bytes from 0.
#[derive(Debug, Drop, Error)]
pub enum GroupFault {
    /// The text breaks the grammar there. The offset is at most the text's length.
    #[error("byte {0}: no Liberty group goes on like this")]
    Syntax(usize),
    /// The `{` there stands inside as many groups as may nest. The offset is at most the text's length.
    #[error("byte {0}: a group inside too many others")]
    Deep(usize),
    #[error("out of memory")]
    Memory,
}

impl From<AllocError> for GroupFault {
    ghost from_gives = { λ _ e. e ≡ fault.Memory };

    fn from(_: AllocError) -> GroupFault {
        GroupFault::Memory
    }
}

impl<T: Drop> From<AllocFailed<T>> for GroupFault {
    ghost from_gives = { λ _ e. e ≡ fault.Memory };

    fn from(_: AllocFailed<T>) -> GroupFault {
        GroupFault::Memory
    }
}
