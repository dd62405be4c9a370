//! The definitions of the nets of one cycle, and of the register bits of the cycle after.
ghost use Rattle.std.specs.Prelude.{◌<◌, ◌^◌, [], ◌∷◌, map, flat_map, length, OnOk};
ghost use Rattle.query_model.specs.Keys.{below};
ghost use Rattle.query_model.specs.Defined.{numbered, unit_if, input_definition, gate_definition, bit_definition, base_definitions};
ghost use Rattle.cnf_encode.specs.Listed.{IsClosed, Lists, at_place, alone, gate_alone};
ghost use Rattle.cnf_encode.specs.Coned.{IsConeFor, of_cone};

use crate::cones::Cone;
use crate::needed::list_unit;
use crate::sites::list_site;
use frame_unroll::{Frames, bit_site, gate_site};
use proof_log::ClauseTable;
use query_model::Key;
use std::alloc::{AllocError, Global};

/// That a key has the value of an input's setting, or where `flip` its complement, if there is one.
fn list_setting(
    alloc: Global,
    frames: &Frames,
    setting: Option<bool>,
    flip: bool,
    out: Key,
    clauses: &mut ClauseTable,
) -> Result<(), AllocError>
    requires closed { IsClosed frames.now (unit_if setting flip out) }
    ensures { OnOk result (Lists frames.now (unit_if setting flip out) clauses.old clauses.new) }
{
    match setting {
        None => Ok(()),
        Some(value) => list_unit(alloc, frames, value != flip, out, clauses),
    }
}

/// The definition of an input that is fixed or a reset.
fn list_input(
    alloc: Global,
    frames: &Frames,
    cone: &Cone,
    cycle: usize,
    input: usize,
    clauses: &mut ClauseTable,
) -> Result<(), AllocError>
    requires cone { IsConeFor frames.now cycle cone.now }
    requires input { input < length cone.now.design.now.inputs }
    requires closed { IsClosed frames.now (input_definition cone.now.design.now cone.now.live cycle input) }
    ensures { OnOk result (Lists frames.now (input_definition cone.now.design.now cone.now.live cycle input) clauses.old clauses.new) }
{
    let out = Key {
        cycle,
        layer: 0,
        rail: 0,
        point: cone.design.inputs.at(input),
    };
    let off = cycle >= cone.live;
    list_setting(alloc, frames, cone.fixed.at(input), false, out, clauses)?;
    list_setting(alloc, frames, cone.resets.at(input), off, out, clauses)?;
    Ok(())
}

fn list_inputs(
    alloc: Global,
    frames: &Frames,
    cone: &Cone,
    cycle: usize,
    clauses: &mut ClauseTable,
) -> Result<(), AllocError>
    requires cone { IsConeFor frames.now cycle cone.now }
    requires closed { IsClosed frames.now (flat_map (input_definition cone.now.design.now cone.now.live cycle) (below (length cone.now.design.now.inputs))) }
    ensures { OnOk result (Lists frames.now
        (flat_map (input_definition cone.now.design.now cone.now.live cycle) (below (length cone.now.design.now.inputs))) clauses.old clauses.new) }
{
    let inputs = cone.inputs.item(cycle);
    for j in 0..inputs.len() {
        list_input(alloc, frames, cone, cycle, inputs.at(j), clauses)?;
    }
    Ok(())
}

/// The definition of the net that a gate drives.
fn list_gate(
    alloc: Global,
    frames: &Frames,
    cone: &Cone,
    cycle: usize,
    k: usize,
    clauses: &mut ClauseTable,
) -> Result<(), AllocError>
    requires cone { IsConeFor frames.now cycle cone.now }
    requires gate { k < length cone.now.design.now.gates }
    requires closed { IsClosed frames.now (at_place (of_cone gate_alone cone.now cycle) cone.now.design.now.gates k) }
    ensures { OnOk result (Lists frames.now (at_place (of_cone gate_alone cone.now cycle) cone.now.design.now.gates k) clauses.old clauses.new) }
{
    let site = gate_site(alloc, cone.design, cone.drivers, cycle, k)?;
    list_site(alloc, frames, &site, cone.cells.gate(k), clauses)?;
    Ok(())
}

fn list_gates(
    alloc: Global,
    frames: &Frames,
    cone: &Cone,
    cycle: usize,
    clauses: &mut ClauseTable,
) -> Result<(), AllocError>
    requires cone { IsConeFor frames.now cycle cone.now }
    requires closed { IsClosed frames.now (map (of_cone gate_definition cone.now cycle) cone.now.design.now.gates) }
    ensures { OnOk result (Lists frames.now (map (of_cone gate_definition cone.now cycle) cone.now.design.now.gates) clauses.old clauses.new) }
{
    let gates = cone.gates.item(cycle);
    for j in 0..gates.len() {
        list_gate(alloc, frames, cone, cycle, gates.at(j), clauses)?;
    }
    Ok(())
}

/// The definition of a register's bit in the cycle after.
fn list_bit(
    alloc: Global,
    frames: &Frames,
    cone: &Cone,
    cycle: usize,
    r: usize,
    clauses: &mut ClauseTable,
) -> Result<(), AllocError>
    requires cone { IsConeFor frames.now cycle cone.now }
    requires cycle { cycle < 2 ^ 32 }
    requires place { r < length cone.now.design.now.regs }
    requires closed { IsClosed frames.now (at_place (alone (of_cone bit_definition cone.now cycle)) cone.now.design.now.regs r) }
    ensures { OnOk result (Lists frames.now (at_place (alone (of_cone bit_definition cone.now cycle)) cone.now.design.now.regs r) clauses.old clauses.new) }
{
    let site = bit_site(alloc, cone.design, cone.drivers, cycle, r)?;
    list_site(alloc, frames, &site, cone.cells.reg(r), clauses)?;
    Ok(())
}

fn list_bits(
    alloc: Global,
    frames: &Frames,
    cone: &Cone,
    cycle: usize,
    clauses: &mut ClauseTable,
) -> Result<(), AllocError>
    requires cone { IsConeFor frames.now cycle cone.now }
    requires cycle { cycle < 2 ^ 32 }
    requires closed { IsClosed frames.now (numbered (of_cone bit_definition cone.now cycle) 0 cone.now.design.now.regs) }
    ensures { OnOk result (Lists frames.now (numbered (of_cone bit_definition cone.now cycle) 0 cone.now.design.now.regs) clauses.old clauses.new) }
{
    let regs = cone.bits.item(cycle + 1);
    for j in 0..regs.len() {
        list_bit(alloc, frames, cone, cycle, regs.at(j), clauses)?;
    }
    Ok(())
}

/// The definitions of a cycle of which no claim asks: of inputs that have a setting, of nets, and of bits.
pub fn list_cycle(
    alloc: Global,
    frames: &Frames,
    cone: &Cone,
    cycle: usize,
    clauses: &mut ClauseTable,
) -> Result<(), AllocError>
    requires cone { IsConeFor frames.now cycle cone.now }
    requires cycle { cycle < 2 ^ 32 }
    requires closed { IsClosed frames.now (of_cone base_definitions cone.now cone.now.live cycle) }
    ensures { OnOk result (Lists frames.now (of_cone base_definitions cone.now cone.now.live cycle) clauses.old clauses.new) }
{
    list_inputs(alloc, frames, cone, cycle, clauses)?;
    list_gates(alloc, frames, cone, cycle, clauses)?;
    list_bits(alloc, frames, cone, cycle, clauses)?;
    Ok(())
}
