//! Why a stimulus or its text is refused.
use std::alloc::{AllocError, AllocFailed};
use thiserror::Error;

/// Why a stimulus stands for no run of the design. Cycles count from 0.
#[derive(Clone, Copy, Debug, Drop, Error, PartialEq, Eq)]
pub enum ReplayFault {
    /// The number of register bits, or of the input bits of some cycle, is not the design's, or there is no cycle.
    #[error("the numbers of bits are not those of the design")]
    Shape,
    /// A reset or fixed input has another value in that cycle than the design gives it.
    #[error("cycle {0}: a reset or fixed input has another value")]
    NotReset(usize),
    #[error("out of memory")]
    Memory,
}

impl From<AllocError> for ReplayFault {
    ghost use Rattle.std.specs.Prelude.{◌≡◌};
    ghost use Rattle.witness_replay.specs.declared.faults.ReplayFault.TheVariants.{Memory};

    ghost from_gives = { λ _ e. e ≡ Memory };

    fn from(_: AllocError) -> ReplayFault {
        ReplayFault::Memory
    }
}

impl<T: Drop> From<AllocFailed<T>> for ReplayFault {
    ghost use Rattle.std.specs.Prelude.{◌≡◌};
    ghost use Rattle.witness_replay.specs.declared.faults.ReplayFault.TheVariants.{Memory};

    ghost from_gives = { λ _ e. e ≡ Memory };

    fn from(_: AllocFailed<T>) -> ReplayFault {
        ReplayFault::Memory
    }
}

/// Why a report has no stimulus of a number.
#[derive(Clone, Copy, Debug, Drop, Error, PartialEq, Eq)]
pub enum StimFault {
    /// No line begins a block of the number.
    #[error("no stimulus of that number")]
    NoBlock,
    /// The first block of the number breaks its form at that line, or the report ends early before it. Lines count from 1.
    #[error("line {0}: not as a stimulus goes on")]
    Form(u64),
    #[error("out of memory")]
    Memory,
}

impl From<AllocError> for StimFault {
    ghost use Rattle.std.specs.Prelude.{◌≡◌};
    ghost use Rattle.witness_replay.specs.declared.faults.StimFault.TheVariants.{Memory};

    ghost from_gives = { λ _ e. e ≡ Memory };

    fn from(_: AllocError) -> StimFault {
        StimFault::Memory
    }
}

impl<T: Drop> From<AllocFailed<T>> for StimFault {
    ghost use Rattle.std.specs.Prelude.{◌≡◌};
    ghost use Rattle.witness_replay.specs.declared.faults.StimFault.TheVariants.{Memory};

    ghost from_gives = { λ _ e. e ≡ Memory };

    fn from(_: AllocFailed<T>) -> StimFault {
        StimFault::Memory
    }
}
