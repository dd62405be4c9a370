//! Texts that are read as functions and cannot be.
ghost use Rattle.std.specs.Prelude.{◌≡◌, IfOk};
ghost use Rattle.lib_func.specs.Functions as functions;
ghost use Rattle.cell_lib.specs.Texts as spec;

use crate::gates::is_gate;
use crate::pins::has_unmodelled_group;
use lib_func::{is_function, read_function};
use lib_words::{Attribute, AttributeKind, CellGroup, Part, PartKind};
use std::alloc::{AllocError, Global};

/// What is wrong with a text that is read as a function.
#[derive(Clone, Copy)]
pub enum Flaw {
    /// It is quoted, and no function.
    Broken,
    /// It is a function, quoted or not, that is too deep.
    Deep,
}

/// Whether the attribute of such a group is read as a function.
fn is_read(part: PartKind, attribute: AttributeKind) -> bool
    ensures { result ≡ spec.is_read part attribute }
{
    match part {
        PartKind::Pin => matches!(attribute, AttributeKind::Function),
        PartKind::Ff => matches!(
            attribute,
            AttributeKind::ClockedOn
                | AttributeKind::NextState
                | AttributeKind::Clear
                | AttributeKind::Preset
        ),
        _ => false,
    }
}

/// Whether a text is a function that is too deep.
fn is_deep(alloc: Global, text: &[u8]) -> Result<bool, AllocError>
    ensures { IfOk result (λ b. b ≡ functions.is_deep text.now) }
{
    if !is_function(text) {
        return Ok(false);
    }
    let found = read_function(alloc, text)?;
    Ok(found.is_none())
}

/// Whether the attribute of such a group is read as a function, and has this flaw.
fn has_flaw(
    alloc: Global,
    flaw: Flaw,
    kind: PartKind,
    attribute: &Attribute,
) -> Result<bool, AllocError>
    ensures { IfOk result (λ b. b ≡ spec.has_flaw flaw kind attribute.now) }
{
    if !is_read(kind, attribute.kind) {
        return Ok(false);
    }
    let text = attribute.value.text.as_bytes();
    match flaw {
        Flaw::Broken => Ok(attribute.value.is_quoted && !is_function(text)),
        Flaw::Deep => is_deep(alloc, text),
    }
}

/// The offset of the first text with this flaw in a group.
fn flaw_in_part(alloc: Global, flaw: Flaw, part: &Part) -> Result<Option<usize>, AllocError>
    ensures { IfOk result (λ place. place ≡ spec.flaw_in_part flaw part.now) }
{
    for attribute in part.attributes.as_slice() {
        if has_flaw(alloc, flaw, part.kind, attribute)? {
            return Ok(Some(attribute.value.offset));
        }
    }
    Ok(None)
}

/// The offset of the first text with this flaw in these groups.
fn flaw_in_parts(alloc: Global, flaw: Flaw, parts: &[Part]) -> Result<Option<usize>, AllocError>
    ensures { IfOk result (λ place. place ≡ spec.flaw_in_parts flaw parts.now) }
{
    for part in parts {
        let place = flaw_in_part(alloc, flaw, part)?;
        if place.is_some() {
            return Ok(place);
        }
    }
    Ok(None)
}

/// The same of a cell: beside a group that is not modelled, and in a clock gate, no function is read.
#[tactic(auto, unfolding(crate::specs::Texts::flaw_in_cell))]
fn flaw_in_cell(alloc: Global, flaw: Flaw, group: &CellGroup) -> Result<Option<usize>, AllocError>
    ensures { IfOk result (λ place. place ≡ spec.flaw_in_cell flaw group.now) }
{
    let parts = group.parts.as_slice();
    if has_unmodelled_group(parts) || is_gate(alloc, group)? {
        return Ok(None);
    }
    flaw_in_parts(alloc, flaw, parts)
}

/// The offset of the first text that is read as a function and has this flaw.
pub fn flaw_in(alloc: Global, flaw: Flaw, groups: &[CellGroup]) -> Result<Option<usize>, AllocError>
    ensures { IfOk result (λ place. place ≡ spec.flaw_in flaw groups.now) }
{
    for group in groups {
        let place = flaw_in_cell(alloc, flaw, group)?;
        if place.is_some() {
            return Ok(place);
        }
    }
    Ok(None)
}
