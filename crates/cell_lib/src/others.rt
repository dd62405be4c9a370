//! Cells that are not modelled.
ghost use Rattle.std.specs.Prelude.{◌≡◌, IfOk};
ghost use Rattle.cell_lib.specs.Others as spec;

use crate::pins::{Role, names_once};
use crate::{Keeps, OtherCell};
use lib_words::{Part, PartKind};
use std::alloc::{AllocError, Global};

/// Whether such a group is of flops or of latches.
fn are_bits(kind: PartKind) -> bool
    ensures { result ≡ spec.are_bits kind }
{
    matches!(
        kind,
        PartKind::Ff | PartKind::FfBank | PartKind::Latch | PartKind::LatchBank
    )
}

/// Whether such a group is a table of states, or a memory.
fn is_store(kind: PartKind) -> bool
    ensures { result ≡ spec.is_store kind }
{
    matches!(kind, PartKind::Statetable | PartKind::Memory)
}

/// Whether a flop or a latch stands among these groups.
fn has_bits(parts: &[Part]) -> bool
    ensures { result ≡ spec.has_bits parts.now }
{
    parts.iter().any(|part| are_bits(part.kind))
}

/// Whether a table of states or a memory does.
fn has_store(parts: &[Part]) -> bool
    ensures { result ≡ spec.has_store parts.now }
{
    parts.iter().any(|part| is_store(part.kind))
}

/// What a cell with these groups keeps.
fn keeps_of(parts: &[Part]) -> Keeps
    ensures { result ≡ spec.keeps_of parts.now }
{
    if has_bits(parts) {
        Keeps::Bits
    } else if has_store(parts) {
        Keeps::Memory
    } else {
        Keeps::Nothing
    }
}

/// The outputs of a cell with these groups, and what it keeps.
pub fn other_of(alloc: Global, parts: &[Part]) -> Result<OtherCell, AllocError>
    ensures { IfOk result (λ other. other ≡ spec.other_of parts.now) }
{
    let outs = names_once(alloc, parts, Role::WideOutput)?;
    let keeps = keeps_of(parts);
    Ok(OtherCell { outs, keeps })
}
