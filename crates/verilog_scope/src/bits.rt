//! The names of nets.
ghost use Rattle.std.specs.Prelude.{◌≡◌, ◌<◌, [], Some, slice_index_or, IfOk};
ghost use Rattle.verilog_scope.specs.Ranges.{width};
ghost use Rattle.verilog_scope.specs.Scopes as spec;

use sdcv_base::{Name, push_decimal};
use std::alloc::{AllocError, Global};
use verilog_syntax::Range;

/// The name of one bit of a name of this range, counted from the most significant.
pub fn bit_name(
    alloc: Global,
    name: &Name,
    range: &Option<Range>,
    bit: usize,
) -> Result<Name, AllocError>
    requires { bit < width range.now }
    ensures { IfOk result (λ bit_name. bit_name ≡ slice_index_or (spec.bit_names name.now range.now) bit []) }
{
    match range {
        None => name.copy(alloc),
        Some(bits) => indexed_name(alloc, name, index_at(bits, bit)),
    }
}

fn index_at(range: &Range, bit: usize) -> u64
    requires { bit < width (Some range.now) }
    ensures { result ≡ spec.index_at range.now bit }
{
    if range.lsb <= range.msb {
        (u64::from(range.msb)).saturating_sub(bit as u64)
    } else {
        u64::from(range.msb) + bit as u64
    }
}

/// The name of a bit of this index of a bus, as `n[3]`.
pub fn indexed_name(alloc: Global, name: &Name, index: u64) -> Result<Name, AllocError>
    ensures { IfOk result (λ bit_name. bit_name ≡ spec.bit_name name.now index) }
{
    let mut bytes = Vec::from_slice(alloc, name.as_bytes())?;
    bytes.push(b'[')?;
    push_decimal(alloc, &mut bytes, index)?;
    bytes.push(b']')?;
    Name::new(alloc, bytes.as_slice())
}
