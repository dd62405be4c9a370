//! Why no pair is tried.
ghost use Rattle.std.specs.Prelude.{◌≡◌};
ghost use Rattle.mcp_detect.specs.declared.faults.DetectFault.TheVariants as fault;

use sdcv_base::LimitName;
use std::alloc::{AllocError, AllocFailed};
use thiserror::Error;

/// Why nothing is found out about the pairs of a design.
#[derive(Debug, Drop, Error)]
pub enum DetectFault {
    /// There are more pairs than are tried. The number is the limit plus 1.
    #[error("limit of {0}: {1}")]
    Limit(LimitName, u64),
    #[error("out of memory")]
    Memory,
}

impl From<AllocError> for DetectFault {
    ghost from_gives = { λ _ e. e ≡ fault.Memory };

    fn from(_: AllocError) -> DetectFault {
        DetectFault::Memory
    }
}

impl<T: Drop> From<AllocFailed<T>> for DetectFault {
    ghost from_gives = { λ _ e. e ≡ fault.Memory };

    fn from(_: AllocFailed<T>) -> DetectFault {
        DetectFault::Memory
    }
}
