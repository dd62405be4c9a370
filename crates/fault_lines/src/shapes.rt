//! The forms of lines: what stands in front, and then numbers and names.
ghost use Rattle.std.specs.Prelude.{◌≡◌, IfOk};
ghost use Rattle.fault_lines.specs.Shapes.{limit_line, name_line, number_line, numbered_line, plain_line, two_numbers_line};

use sdcv_base::{LimitName, Name};
use std::alloc::{AllocError, Global};

pub fn plain_line(alloc: Global, front: &str) -> Result<Vec<u8>, AllocError>
    ensures { IfOk result (λ line. line.items ≡ plain_line front.now) }
{
    Ok(format!(in alloc; "{front}\n")?.into_bytes())
}

pub fn number_line(alloc: Global, front: &str, number: u64) -> Result<Vec<u8>, AllocError>
    ensures { IfOk result (λ line. line.items ≡ number_line front.now number) }
{
    Ok(format!(in alloc; "{front} {number}\n")?.into_bytes())
}

pub fn name_line(alloc: Global, front: &str, name: &Name) -> Result<Vec<u8>, AllocError>
    ensures { IfOk result (λ line. line.items ≡ name_line front.now name.now) }
{
    Ok(format!(in alloc; "{front} {name}\n")?.into_bytes())
}

pub fn numbered_line(
    alloc: Global,
    front: &str,
    number: u64,
    name: &Name,
) -> Result<Vec<u8>, AllocError>
    ensures { IfOk result (λ line. line.items ≡ numbered_line front.now number name.now) }
{
    Ok(format!(in alloc; "{front} {number} {name}\n")?.into_bytes())
}

pub fn two_numbers_line(
    alloc: Global,
    front: &str,
    first: u64,
    second: u64,
) -> Result<Vec<u8>, AllocError>
    ensures { IfOk result (λ line. line.items ≡ two_numbers_line front.now first second) }
{
    Ok(format!(in alloc; "{front} {first} {second}\n")?.into_bytes())
}

pub fn limit_line(
    alloc: Global,
    front: &str,
    what: LimitName,
    number: u64,
) -> Result<Vec<u8>, AllocError>
    ensures { IfOk result (λ line. line.items ≡ limit_line front.now what number) }
{
    Ok(format!(in alloc; "{front} {what} {number}\n")?.into_bytes())
}
