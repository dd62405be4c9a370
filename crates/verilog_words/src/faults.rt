//! Why a text is no row of modules.
ghost use Rattle.std.specs.Prelude.{◌≡◌};
ghost use Rattle.verilog_words.specs.declared.faults.SyntaxFault.TheVariants as fault;
ghost use Rattle.verilog_words.specs.Told.{of_syntax};

use netlist_types::VerFault;
use sdcv_base::Name;
use std::alloc::{AllocError, AllocFailed};
use thiserror::Error;

/// Why a text is no row of modules. Offsets count bytes from 0.
#[derive(Debug, Drop, Error)]
pub enum SyntaxFault {
    /// The text breaks the grammar there. The offset is at most the text's length.
    #[error("byte {0}: no netlist goes on like this")]
    Syntax(usize),
    /// A word of behaviour, or another one that is left out, begins an item there, or stands where a module could begin.
    #[error("byte {0}: {1} begins nothing that a netlist has")]
    Unsupported(usize, Name),
    /// A mark stands there inside as many of its kind as may be open at once.
    #[error("byte {0}: too many marks are open here")]
    Deep(usize),
    #[error("out of memory")]
    Memory,
}

impl From<AllocError> for SyntaxFault {
    ghost from_gives = { λ _ e. e ≡ fault.Memory };

    fn from(_: AllocError) -> SyntaxFault {
        SyntaxFault::Memory
    }
}

impl<T: Drop> From<AllocFailed<T>> for SyntaxFault {
    ghost from_gives = { λ _ e. e ≡ fault.Memory };

    fn from(_: AllocFailed<T>) -> SyntaxFault {
        SyntaxFault::Memory
    }
}

impl From<SyntaxFault> for VerFault {
    ghost from_gives = { λ f e. e ≡ of_syntax f };

    fn from(fault: SyntaxFault) -> VerFault {
        match fault {
            SyntaxFault::Syntax(place) => VerFault::Syntax(place),
            SyntaxFault::Unsupported(place, word) => VerFault::Unsupported(place, word),
            SyntaxFault::Deep(place) => VerFault::Deep(place),
            SyntaxFault::Memory => VerFault::Memory,
        }
    }
}
