//! Why a circuit gives no design.
ghost use Rattle.std.specs.Prelude.{◌≡◌};
ghost use Rattle.link_design.specs.declared.faults.CircuitFault.TheVariants as fault;

use sdcv_base::LimitName;
use std::alloc::{AllocError, AllocFailed};
use thiserror::Error;

/// Why a circuit gives no design. Nets are told by their numbers in the circuit.
#[derive(Clone, Copy, Debug, PartialEq, Eq, Error)]
pub enum CircuitFault {
    /// This net is read, and nothing drives it.
    #[error("nothing drives the net {0}")]
    Undriven(usize),
    #[error("net {0} has more than one driver")]
    ManyDrivers(usize),
    #[error("net {0} is on a cycle of gates")]
    Loop(usize),
    /// The part at this place is a register or a clock gate whose clock pin is not on the clock tree after an even number of
    /// inversions.
    #[error("part {0} is not on the clock")]
    NotTheClock(usize),
    /// This net of the clock tree is read as data.
    #[error("the clock's net {0} is read as data")]
    ClockAsData(usize),
    /// This count is above its limit. The number is the limit plus 1.
    #[error("limit of {0}: {1}")]
    Limit(LimitName, u64),
    #[error("out of memory")]
    Memory,
}

impl From<AllocError> for CircuitFault {
    ghost from_gives = { λ _ e. e ≡ fault.Memory };

    fn from(_: AllocError) -> CircuitFault {
        CircuitFault::Memory
    }
}

impl<T: Drop> From<AllocFailed<T>> for CircuitFault {
    ghost from_gives = { λ _ e. e ≡ fault.Memory };

    fn from(_: AllocFailed<T>) -> CircuitFault {
        CircuitFault::Memory
    }
}
