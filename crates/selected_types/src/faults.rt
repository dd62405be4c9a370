//! Why a script selects nothing.
ghost use Rattle.std.specs.Prelude.{◌≡◌};
ghost use Rattle.selected_types.specs.declared.faults.ExpandFault.TheVariants as fault;

use sdcv_base::{LimitName, Name};
use std::alloc::{AllocError, AllocFailed};
use thiserror::Error;

/// Why a script gives no settings, or selects no pairs. Lines count from 1, and are those of the commands' first bytes.
#[derive(Debug, Drop, Error)]
pub enum ExpandFault {
    /// These are the first two clocks that have a source, of those of the name that is asked for, if one is.
    #[error("lines {0} and {1}: two clocks with a source")]
    TwoClocks(u64, u64),
    /// The objects of a clock's source do not name exactly one input port bit, or some are no ports.
    #[error("line {0}: the source of a clock is not exactly one input port bit")]
    ClockNotPort(u64),
    /// A case analysis gives an input a value at the first line, and another gives it the other value at the later one.
    #[error("lines {0} and {1}: two case analyses give one port different values")]
    CaseTwice(u64, u64),
    /// A case analysis gives this input, which is a reset, a value.
    #[error("line {0}: {1} is a reset")]
    CaseOnReset(u64, Name),
    /// An object of a case analysis names no data input bit, or is no port, or names the clock port.
    #[error("line {0}: {1} is no data input port")]
    CaseOnPin(u64, Name),
    /// This count is above its limit. The number is the limit plus 1.
    #[error("limit of {0}: {1}")]
    Limit(LimitName, u64),
    #[error("out of memory")]
    Memory,
    /// The clock of this name is asked for, and no clock of it has a source.
    #[error("no clock {0} has a source")]
    NoClock(Name),
    /// The generated clock of this line may clock a register that is judged by its source.
    #[error("line {0}: a generated clock whose registers are judged by another")]
    Generated(u64),
}

impl From<AllocError> for ExpandFault {
    ghost from_gives = { λ _ e. e ≡ fault.Memory };

    fn from(_: AllocError) -> ExpandFault {
        ExpandFault::Memory
    }
}

impl<T: Drop> From<AllocFailed<T>> for ExpandFault {
    ghost from_gives = { λ _ e. e ≡ fault.Memory };

    fn from(_: AllocFailed<T>) -> ExpandFault {
        ExpandFault::Memory
    }
}
