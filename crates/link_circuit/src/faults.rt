//! Why names have no table.
ghost use Rattle.std.specs.Prelude.{◌≡◌};
ghost use Rattle.link_circuit.specs.declared.faults.NameFault.TheVariants as fault;

use sdcv_base::Name;
use std::alloc::{AllocError, AllocFailed};
use thiserror::Error;

/// Why names have no table.
#[derive(Debug, Drop, Error)]
pub enum NameFault {
    /// Two nets have this name.
    #[error("two nets have the name {0}")]
    Clash(Name),
    #[error("out of memory")]
    Memory,
}

impl From<AllocError> for NameFault {
    ghost from_gives = { λ _ e. e ≡ fault.Memory };

    fn from(_: AllocError) -> NameFault {
        NameFault::Memory
    }
}

impl<T: Drop> From<AllocFailed<T>> for NameFault {
    ghost from_gives = { λ _ e. e ≡ fault.Memory };

    fn from(_: AllocFailed<T>) -> NameFault {
        NameFault::Memory
    }
}
