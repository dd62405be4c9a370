//! What the pins of a cell, and an `ff`, make of it.
ghost use Rattle.std.specs.Prelude.{◌≡◌, IfOk};
ghost use Rattle.std.specs.Option.{option_copied};
ghost use Rattle.texts.specs.Names.{each_once};
ghost use Rattle.cell_lib.specs.Pins as pins_spec;
ghost use Rattle.cell_lib.specs.Flops as flops_spec;
ghost use Rattle.cell_lib.specs.Combs.{comb_outs};
ghost use Rattle.cell_lib.specs.Cells as spec;
ghost use Rattle.cell_lib.specs.declared.pins.Role.TheVariants as role;
ghost use Rattle.cell_types.specs.declared.libraries.CellKind.TheVariants as kinds;

use crate::combs::comb_outs;
use crate::flops::{data_inputs, flop_of};
use crate::gates::gate_of;
use crate::misfits::Misfit;
use crate::others::other_of;
use crate::pins::{
    OutPin, Role, are_directed, can_be_modelled, names_differ, names_of, names_once, outs_of,
    push_names,
};
use crate::{CellKind, Flop, GateCell};
use lib_words::{CellGroup, Part, PartKind};
use sdcv_base::{Name, Seq};
use std::alloc::{AllocError, Global};
use texts::NameTable;

/// A cell's input pins, and what it is.
#[derive(Drop)]
pub struct Shape {
    pub inputs: Seq<Name>,
    pub kind: CellKind,
}

/// Each of these names once.
fn table(alloc: Global, names: &[Name]) -> Result<NameTable, AllocError>
    ensures { IfOk result (λ t. t ≡ each_once names.now) }
{
    let mut table = NameTable::new(alloc);
    table.add_all(alloc, names)?;
    Ok(table)
}

/// A cell with these input pins.
fn shape_with(alloc: Global, inputs: &NameTable, kind: CellKind) -> Result<Shape, AllocError>
    ensures { IfOk result (λ s. s ≡ record { inputs = inputs.now; kind = kind }) }
{
    let inputs = Seq::from_vec(inputs.names(alloc)?);
    Ok(Shape { inputs, kind })
}

/// A cell that is not modelled.
fn other_shape(alloc: Global, parts: &[Part]) -> Result<Shape, AllocError>
    ensures { IfOk result (λ s. s ≡ spec.other_shape parts.now) }
{
    let inputs = names_once(alloc, parts, Role::WideInput)?;
    let other = other_of(alloc, parts)?;
    Ok(Shape {
        inputs,
        kind: CellKind::Other(other),
    })
}

/// A cell without an `ff`.
fn comb_shape(
    alloc: Global,
    parts: &[Part],
    inputs: &[Name],
    outs: &[OutPin],
) -> Result<Shape, AllocError>
    ensures { IfOk result (λ s. s ≡ spec.comb_shape parts.now (each_once inputs.now) (comb_outs (each_once inputs.now) outs.now)) }
{
    let inputs = table(alloc, inputs)?;
    match comb_outs(alloc, &inputs, outs) {
        Ok(outs) => shape_with(alloc, &inputs, CellKind::Comb(outs)),
        Err(Misfit::Other) => other_shape(alloc, parts),
        Err(Misfit::Memory) => Err(AllocError),
    }
}

/// A cell that is this flop: its clock is not among the inputs.
fn clocked_shape(alloc: Global, inputs: &[Name], flop: Flop) -> Result<Shape, AllocError>
    ensures { IfOk result (λ s. s ≡ record { inputs = flops_spec.data_inputs flop.clock inputs.now; kind = kinds.Flop flop }) }
{
    let inputs = data_inputs(alloc, &flop.clock, inputs)?;
    shape_with(alloc, &inputs, CellKind::Flop(flop))
}

/// A cell with an `ff`.
fn flop_shape(
    alloc: Global,
    parts: &[Part],
    inputs: &[Name],
    outs: &[OutPin],
    ff: &Part,
) -> Result<Shape, AllocError>
    ensures { IfOk result (λ s. s ≡ spec.flop_shape parts.now inputs.now (flops_spec.flop_of inputs.now outs.now ff.now)) }
{
    match flop_of(alloc, inputs, outs, ff) {
        Ok(flop) => clocked_shape(alloc, inputs, flop),
        Err(Misfit::Other) => other_shape(alloc, parts),
        Err(Misfit::Memory) => Err(AllocError),
    }
}

/// How many groups `ff` there are.
fn ff_count(parts: &[Part]) -> usize
    ensures { result ≡ spec.ff_count parts.now }
{
    parts
        .iter()
        .filter(|part| matches!(part.kind, PartKind::Ff))
        .count()
}

/// The first group `ff`.
fn first_ff(parts: &[Part]) -> Option<&Part>
    ensures { option_copied result ≡ spec.first_ff parts.now }
{
    parts.iter().find(|part| matches!(part.kind, PartKind::Ff))
}

/// Whether the cell is modelled: each group and attribute can be, each pin is an input or an output, names differ, and
/// there is one `ff` at most.
#[tactic(auto, unfolding(crate::specs::Cells::is_modelled))]
fn is_modelled(alloc: Global, group: &CellGroup) -> Result<bool, AllocError>
    ensures { IfOk result (λ b. b ≡ spec.is_modelled group.now) }
{
    let parts = group.parts.as_slice();
    if !can_be_modelled(group) {
        return Ok(false);
    }
    if !are_directed(parts) {
        return Ok(false);
    }
    if ff_count(parts) > 1 {
        return Ok(false);
    }
    names_differ(alloc, parts, Role::Any)
}

/// What pins, and an `ff` where there is one, make of a cell that is modelled.
fn modelled_shape(alloc: Global, parts: &[Part]) -> Result<Shape, AllocError>
    ensures { IfOk result (λ s. s ≡ spec.shape_by parts.now (pins_spec.names_of role.Input parts.now) (pins_spec.outs_of parts.now) (spec.first_ff parts.now)) }
{
    let inputs = names_of(alloc, parts, Role::Input)?;
    let outs = outs_of(alloc, parts)?;
    match first_ff(parts) {
        None => comb_shape(alloc, parts, inputs.as_slice(), outs.as_slice()),
        Some(ff) => flop_shape(alloc, parts, inputs.as_slice(), outs.as_slice(), ff),
    }
}

/// A cell that is this clock gate: its clock is not among the inputs.
fn gate_shape(alloc: Global, gate: GateCell) -> Result<Shape, AllocError>
    ensures { IfOk result (λ s. s ≡ record { inputs = gate.enables; kind = kinds.Gate gate }) }
{
    let mut inputs = Seq::new(alloc);
    push_names(alloc, &mut inputs, gate.enables.as_slice())?;
    let kind = CellKind::Gate(gate);
    Ok(Shape { inputs, kind })
}

/// What a cell's groups make of it.
#[tactic(auto, unfolding(crate::specs::Cells::shape_of))]
pub fn shape_of(alloc: Global, group: &CellGroup) -> Result<Shape, AllocError>
    ensures { IfOk result (λ s. s ≡ spec.shape_of group.now) }
{
    match gate_of(alloc, group) {
        Ok(gate) => gate_shape(alloc, gate),
        Err(Misfit::Other) => plain_shape(alloc, group),
        Err(Misfit::Memory) => Err(AllocError),
    }
}

/// What the groups of a cell that is no clock gate make of it.
#[tactic(auto, unfolding(crate::specs::Cells::plain_shape))]
fn plain_shape(alloc: Global, group: &CellGroup) -> Result<Shape, AllocError>
    ensures { IfOk result (λ s. s ≡ spec.plain_shape group.now) }
{
    let parts = group.parts.as_slice();
    if is_modelled(alloc, group)? {
        modelled_shape(alloc, parts)
    } else {
        other_shape(alloc, parts)
    }
}
