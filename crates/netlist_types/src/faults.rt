//! Why a text is no netlist.
ghost use Rattle.std.specs.Prelude.{◌≡◌};
ghost use Rattle.netlist_types.specs.declared.faults.VerFault.TheVariants as fault;

use sdcv_base::Name;
use std::alloc::{AllocError, AllocFailed};
use thiserror::Error;

/// Why a text is no netlist. Offsets count bytes from 0.
#[derive(Debug, Drop, Error)]
pub enum VerFault {
    /// The text breaks the grammar there, or names what is nowhere declared, or bits that a name does not have.
    #[error("byte {0}: no netlist goes on like this")]
    Syntax(usize),
    /// This word begins an item there, and none of its kind is read.
    #[error("byte {0}: `{1}` is no part of a netlist")]
    Unsupported(usize, Name),
    /// The name of a module, port, net, instance or pin stands for two of them.
    #[error("`{0}` is declared twice")]
    TwiceName(Name),
    /// A connection, a terminal or an assignment begins there, and its two sides have not the same number of bits.
    #[error("byte {0}: the two sides differ in width")]
    Width(usize),
    /// A brace stands there inside as many others as may be open at once.
    #[error("byte {0}: too many braces are open here")]
    Deep(usize),
    #[error("out of memory")]
    Memory,
}

impl From<AllocError> for VerFault {
    ghost from_gives = { λ _ e. e ≡ fault.Memory };

    fn from(_: AllocError) -> VerFault {
        VerFault::Memory
    }
}

impl<T: Drop> From<AllocFailed<T>> for VerFault {
    ghost from_gives = { λ _ e. e ≡ fault.Memory };

    fn from(_: AllocFailed<T>) -> VerFault {
        VerFault::Memory
    }
}
