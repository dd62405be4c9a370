//! The line of a design whose pairs are not tried.
ghost use Rattle.std.specs.Prelude.{◌≡◌, IfOk, Some};
ghost use Rattle.found_pairs.specs.Tellings.{detect_line};

use mcp_detect::DetectFault;
use std::alloc::{AllocError, Global};

/// The line of a fault. Want of memory has none, and is an error.
pub fn detect_line(alloc: Global, fault: &DetectFault) -> Result<Vec<u8>, AllocError>
    ensures { IfOk result (λ line. detect_line fault.now ≡ Some line.items) }
{
    match fault {
        DetectFault::Limit(what, number) => {
            let line = format!(in alloc; "refused detect 1 Limit {what} {number}\n")?;
            Ok(line.into_bytes())
        }
        DetectFault::Memory => Err(AllocError),
    }
}
