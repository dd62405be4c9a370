//! Why a design takes no assumptions.
use std::alloc::AllocError;
use thiserror::Error;

/// Why a design takes no assumptions.
#[derive(Clone, Copy, Debug, Drop, Error, PartialEq, Eq)]
pub enum AssumeFault {
    /// With one for each assumption there are so many nets, which are more than a design may have.
    #[error("there are {0} nets")]
    Nets(usize),
    /// With one for each assumption there are so many inputs, which are more than a design may have.
    #[error("there are {0} inputs")]
    Inputs(usize),
    #[error("out of memory")]
    Memory,
}

impl From<AllocError> for AssumeFault {
    ghost use Rattle.std.specs.Prelude.{◌≡◌};
    ghost use Rattle.case_inputs.specs.declared.faults.AssumeFault.TheVariants.{Memory};

    ghost from_gives = { λ _ e. e ≡ Memory };

    fn from(_: AllocError) -> AssumeFault {
        AssumeFault::Memory
    }
}
