//! Full names.
ghost use Rattle.std.specs.Prelude.{◌≡◌, ◌++◌, IfOk};
ghost use Rattle.link_defs.specs.Flatten.{with_slash};
ghost use Rattle.link_defs.specs.Faults.{pin_of};

use sdcv_base::Name;
use std::alloc::{AllocError, Global};

/// The full name of what stands in an instance whose names begin with `prefix`.
pub fn full_name(alloc: Global, prefix: &Name, name: &Name) -> Result<Name, AllocError>
    ensures { IfOk result (λ full. full ≡ prefix.now ++ name.now) }
{
    let mut bytes = Vec::from_slice(alloc, prefix.as_bytes())?;
    bytes.extend_from_slice(name.as_bytes())?;
    Ok(Name::from_vec(bytes))
}

/// The full name of a pin of what has that full name.
pub fn pin_name(alloc: Global, full: &Name, pin: &Name) -> Result<Name, AllocError>
    ensures { IfOk result (λ name. name ≡ pin_of full.now pin.now) }
{
    let mut bytes = Vec::from_slice(alloc, full.as_bytes())?;
    bytes.push(b'/')?;
    bytes.extend_from_slice(pin.as_bytes())?;
    Ok(Name::from_vec(bytes))
}

/// What the full names in an instance of this name begin with.
pub(crate) fn inner_prefix(alloc: Global, prefix: &Name, name: &Name) -> Result<Name, AllocError>
    ensures { IfOk result (λ inner. inner ≡ with_slash prefix.now name.now) }
{
    let mut bytes = Vec::from_slice(alloc, prefix.as_bytes())?;
    bytes.extend_from_slice(name.as_bytes())?;
    bytes.push(b'/')?;
    Ok(Name::from_vec(bytes))
}
