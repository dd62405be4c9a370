//! Why a text is no library.
ghost use Rattle.std.specs.Prelude.{◌≡◌};
ghost use Rattle.cell_types.specs.declared.faults.LibFault.TheVariants as fault;

use sdcv_base::Name;
use std::alloc::{AllocError, AllocFailed};
use thiserror::Error;

/// Why a text is no library. Offsets count bytes from 0.
#[derive(Debug, Drop, Error)]
pub enum LibFault {
    /// The text stops being a tree of Liberty groups there. The offset is at most the text's length.
    #[error("byte {0}: no Liberty library goes on like this")]
    Syntax(usize),
    /// The quoted text whose first byte stands there is read as a function, and is none.
    #[error("byte {0}: no Boolean function")]
    Function(usize),
    /// Two cells have this name.
    #[error("two cells have the name {0}")]
    TwiceCell(Name),
    #[error("out of memory")]
    Memory,
    /// The `{` there stands inside 256 groups; or the text whose first byte stands there is read as a function, quoted or
    /// not, and its parentheses nest deeper than 256 or its tree is higher.
    #[error("byte {0}: nested too deep")]
    Deep(usize),
}

impl From<AllocError> for LibFault {
    ghost from_gives = { λ _ e. e ≡ fault.Memory };

    fn from(_: AllocError) -> LibFault {
        LibFault::Memory
    }
}

impl<T: Drop> From<AllocFailed<T>> for LibFault {
    ghost from_gives = { λ _ e. e ≡ fault.Memory };

    fn from(_: AllocFailed<T>) -> LibFault {
        LibFault::Memory
    }
}
