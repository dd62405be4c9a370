//! Why a script is not mended.
ghost use Rattle.std.specs.Prelude.{◌≡◌, IfOk, Some};
ghost use Rattle.mended_text.specs.Tellings as spec;
ghost use Rattle.mended_text.specs.declared.faults.MendFault.TheVariants.{Memory};

use std::alloc::{AllocError, Global};
use thiserror::Error;

/// Why a script is not mended.
#[derive(Debug, Clone, Copy, PartialEq, Eq, Error)]
pub enum MendFault {
    /// The mended text is not read as a script of the same settings that selects exactly what is kept.
    #[error("the mended text is not read as it is meant")]
    Unread,
    #[error("out of memory")]
    Memory,
}

impl From<AllocError> for MendFault {
    ghost from_gives = { λ _ e. e ≡ Memory };

    fn from(_: AllocError) -> MendFault {
        MendFault::Memory
    }
}

/// The line of a fault. Want of memory has none, and is an error.
pub fn mend_line(alloc: Global, fault: MendFault) -> Result<Vec<u8>, AllocError>
    ensures { IfOk result (λ line. spec.mend_line fault ≡ Some line.items) }
{
    match fault {
        MendFault::Unread => Ok(format!(in alloc; "refused mend 1 Unread\n")?.into_bytes()),
        MendFault::Memory => Err(AllocError),
    }
}
