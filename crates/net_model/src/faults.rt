//! Why a design is not sound.
use std::alloc::AllocError;
use thiserror::Error;

/// Why a design is not sound. Nets, gates and inputs are named by their numbers.
#[derive(Clone, Copy, Debug, Drop, Error, PartialEq, Eq)]
pub enum DesignFault {
    /// This number stands for a net, an input, or a place that a function reads, and there is none of that number.
    #[error("the number {0} is out of range")]
    PlaceOutOfRange(usize),
    /// Two drivers drive this net.
    #[error("net {0} has more than one driver")]
    ManyDrivers(usize),
    /// No input, register or gate drives this net.
    #[error("net {0} has no driver")]
    Undriven(usize),
    /// This gate reads a net that no input, register or earlier gate drives.
    #[error("gate {0} reads a net that no input, register or earlier gate drives")]
    Order(usize),
    /// This input is fixed or reset twice, or both fixed and reset.
    #[error("input {0} is fixed or reset twice")]
    Twice(usize),
    /// There are at least so many nets, registers, inputs, outputs, pins of one gate or register, or reset cycles. The
    /// number is the limit plus 1: counting stops there.
    #[error("a number is above its limit: {0} or more")]
    Limit(usize),
    #[error("out of memory")]
    Memory,
}

impl From<AllocError> for DesignFault {
    ghost use Rattle.std.specs.Prelude.{◌≡◌};
    ghost use Rattle.net_model.specs.declared.faults.DesignFault.TheVariants.{Memory};

    ghost from_gives = { λ _ e. e ≡ Memory };

    fn from(_: AllocError) -> DesignFault {
        DesignFault::Memory
    }
}
