//! Why a derivation is refused.
use std::alloc::{AllocError, AllocFailed};
use thiserror::Error;

/// Why a derivation does not refute the formula. Steps, and places of hints, count from 1.
#[derive(Clone, Copy, Debug, Drop, Error, PartialEq, Eq)]
pub enum CheckFault {
    /// A hint of the step is 0, or names the step itself or a later one.
    #[error("step {0}: a hint names no earlier clause")]
    HintMissing(usize),
    /// The step's hint at that place is neither unit nor false, or stands after a false one.
    #[error("step {0}: hint {1} is neither unit nor false, or stands after a false one")]
    HintNotUnit(usize, usize),
    /// No hint of the step is false.
    #[error("step {0}: the hints lead to no conflict")]
    NoConflict(usize),
    /// The last clause is not empty, or there is no step.
    #[error("the last clause is not empty")]
    NotEmpty,
    #[error("out of memory")]
    Memory,
}

impl From<AllocError> for CheckFault {
    ghost use Rattle.std.specs.Prelude.{◌≡◌};
    ghost use Rattle.rup_check.specs.declared.faults.CheckFault.TheVariants.{Memory};

    ghost from_gives = { λ _ e. e ≡ Memory };

    fn from(_: AllocError) -> CheckFault {
        CheckFault::Memory
    }
}

impl<T: Drop> From<AllocFailed<T>> for CheckFault {
    ghost use Rattle.std.specs.Prelude.{◌≡◌};
    ghost use Rattle.rup_check.specs.declared.faults.CheckFault.TheVariants.{Memory};

    ghost from_gives = { λ _ e. e ≡ Memory };

    fn from(_: AllocFailed<T>) -> CheckFault {
        CheckFault::Memory
    }
}
