//! Why a design with clock gates is not rewritten.
use std::alloc::AllocError;
use thiserror::Error;

/// Why a design with clock gates is not rewritten.
#[derive(Clone, Copy, Debug, Drop, Error, PartialEq, Eq)]
pub enum RewriteFault {
    /// This register stands behind a clock gate, and has as many pins already as a register may have.
    #[error("register {0} has no room for an enable")]
    Pins(usize),
    /// With one for each clock gate there are so many nets, which are more than a design may have.
    #[error("there are {0} nets")]
    Nets(usize),
    #[error("out of memory")]
    Memory,
}

impl From<AllocError> for RewriteFault {
    ghost use Rattle.std.specs.Prelude.{◌≡◌};
    ghost use Rattle.icg_rewrite.specs.declared.faults.RewriteFault.TheVariants.{Memory};

    ghost from_gives = { λ _ e. e ≡ Memory };

    fn from(_: AllocError) -> RewriteFault {
        RewriteFault::Memory
    }
}
