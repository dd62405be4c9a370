//! Clock gates (Liberty, attribute `clock_gating_integrated_cell`).
ghost use Rattle.std.specs.Prelude.{◌≡◌, IfOk, is_some};
ghost use Rattle.std.specs.List.{list_all};
ghost use Rattle.texts.specs.Reads.{Gives};
ghost use Rattle.cell_lib.specs.Fails.{Fails};
ghost use Rattle.cell_lib.specs.Gates as spec;

use crate::GateCell;
use crate::misfits::Misfit;
use crate::pins::{Role, has_true, is_input, is_output, names_differ, names_of};
use crate::values::says;
use lib_words::{AttributeKind, CellGroup, Part, PartKind};
use sdcv_base::{Name, Seq};
use std::alloc::{AllocError, Global};

/// Whether the attribute of the cell that makes it a clock gate is given as this word.
fn is_gated_as(group: &CellGroup, word: &str) -> bool
    ensures { result ≡ spec.is_gated_as word.now group.now }
{
    let attributes = group.attributes.as_slice();
    says(attributes, AttributeKind::ClockGatingIntegratedCell, word)
}

/// Whether test pins enable too.
fn is_precontrol(group: &CellGroup) -> bool
    ensures { result ≡ spec.is_precontrol group.now }
{
    is_gated_as(group, "latch_posedge_precontrol")
}

/// Whether the cell gates the rising edge.
fn is_posedge(group: &CellGroup) -> bool
    ensures { result ≡ spec.is_posedge group.now }
{
    is_gated_as(group, "latch_posedge") || is_precontrol(group)
}

/// Whether the group, if it is of input pins, is of enables.
fn is_enable(group: &CellGroup, part: &Part) -> bool
    ensures { result ≡ spec.is_enable group.now part.now }
{
    has_true(part, AttributeKind::ClockGateEnablePin)
        || (is_precontrol(group) && has_true(part, AttributeKind::ClockGateTestPin))
}

/// Whether the group is of pins that are no input and no output.
fn is_internal(part: &Part) -> bool
    ensures { result ≡ spec.is_internal part.now }
{
    matches!(part.kind, PartKind::Pin)
        && says(
            part.attributes.as_slice(),
            AttributeKind::Direction,
            "internal",
        )
}

/// Whether the group is of the clock or of enables.
fn is_gate_input(group: &CellGroup, part: &Part) -> bool
    ensures { result ≡ spec.is_gate_input group.now part.now }
{
    is_input(part) && (has_true(part, AttributeKind::ClockGateClockPin) || is_enable(group, part))
}

/// Whether the group is of an output that is gated.
fn is_gate_output(part: &Part) -> bool
    ensures { result ≡ spec.is_gate_output part.now }
{
    is_output(part) && has_true(part, AttributeKind::ClockGateOutPin)
}

/// Whether the group, if it is of pins, is of such as a clock gate has.
fn is_gate_part(group: &CellGroup, part: &Part) -> bool
    ensures { result ≡ spec.is_gate_part group.now part.now }
{
    !matches!(part.kind, PartKind::Pin)
        || is_gate_input(group, part)
        || is_gate_output(part)
        || is_internal(part)
}

/// Whether each group of pins is of such as a clock gate has.
fn are_gate_parts(group: &CellGroup) -> bool
    ensures { result ≡ list_all (spec.is_gate_part group.now) group.now.parts }
{
    let parts = group.parts.as_slice();
    parts.iter().all(|part| is_gate_part(group, part))
}

/// Whether the cell gates the rising edge, and has pins as a clock gate has, and names that differ.
#[tactic(auto, unfolding(crate::specs::Gates::has_gate_pins))]
fn has_gate_pins(alloc: Global, group: &CellGroup) -> Result<bool, AllocError>
    ensures { IfOk result (λ b. b ≡ spec.has_gate_pins group.now) }
{
    if !is_posedge(group) {
        return Ok(false);
    }
    if !are_gate_parts(group) {
        return Ok(false);
    }
    names_differ(alloc, group.parts.as_slice(), Role::Pin)
}

/// The only one of these names.
fn only(alloc: Global, names: &[Name]) -> Result<Name, Misfit>
    ensures { Gives Fails (λ x. x) result (spec.only names.now) }
{
    match names {
        [name] => Ok(name.copy(alloc)?),
        _ => Err(Misfit::Other),
    }
}

/// These names, where there is one at least.
fn some_names(names: Seq<Name>) -> Result<Seq<Name>, Misfit>
    ensures { Gives Fails (λ x. x) result (spec.some_names names) }
{
    if names.len() == 0 {
        return Err(Misfit::Other);
    }
    Ok(names)
}

/// The clock gate that a cell is.
#[tactic(auto, unfolding(crate::specs::Gates::gate_of))]
pub fn gate_of(alloc: Global, group: &CellGroup) -> Result<GateCell, Misfit>
    ensures { Gives Fails (λ x. x) result (spec.gate_of group.now) }
{
    if !has_gate_pins(alloc, group)? {
        return Err(Misfit::Other);
    }
    let parts = group.parts.as_slice();
    let clocks = names_of(alloc, parts, Role::GateClock)?;
    let clock = only(alloc, clocks.as_slice())?;
    let enables = some_names(names_of(alloc, parts, Role::GateData)?)?;
    let outs = names_of(alloc, parts, Role::Output)?;
    let out = only(alloc, outs.as_slice())?;
    Ok(GateCell {
        clock,
        enables,
        out,
    })
}

/// Whether a cell is a clock gate.
pub fn is_gate(alloc: Global, group: &CellGroup) -> Result<bool, AllocError>
    ensures { IfOk result (λ b. b ≡ is_some (spec.gate_of group.now)) }
{
    match gate_of(alloc, group) {
        Ok(_) => Ok(true),
        Err(Misfit::Other) => Ok(false),
        Err(Misfit::Memory) => Err(AllocError),
    }
}
