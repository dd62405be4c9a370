//! The definitions of nets in the layers of a cycle whose start is late.
ghost use Rattle.std.specs.Prelude.{◌≡◌, ◌<◌, ◌≤◌, ◌+◌, flat_map, length, OnOk};
ghost use Rattle.query_model.specs.Keys.{key};
ghost use Rattle.query_model.specs.Defined.{layer_gate, layer_gates, start_units, layer_definitions, all_layers};
ghost use Rattle.query_model.specs.Defined.{start_net};
ghost use Rattle.cnf_encode.specs.Listed.{IsClosed, Lists, at_place};
ghost use Rattle.cnf_encode.specs.Coned.{Covers, gate_points};
ghost use Rattle.cnf_encode.specs.Late.{IsLateStart, of_late};

use crate::late_starts::LateStart;
use crate::needed::list_unit;
use crate::sites::list_site;
use frame_unroll::{Frames, has_own, late_gate_site};
use proof_log::ClauseTable;
use query_model::Key;
use sdcv_base::Seq;
use std::alloc::{AllocError, Global};

/// A layer of a cycle: what is late in it has come through so many through sets.
#[derive(Debug, Clone, Copy, PartialEq, Eq)]
pub struct LayerAt {
    pub cycle: usize,
    pub layer: usize,
}

/// The keys of a point of a layer, by which it may be 1 and may be 0.
fn rails_of(cycle: usize, layer: usize, point: usize) -> (Key, Key)
    ensures high { result.0 ≡ key cycle layer 0 point }
    ensures low { result.1 ≡ key cycle layer 1 point }
{
    let high = Key {
        cycle,
        layer,
        rail: 0,
        point,
    };
    (high, Key { rail: 1, ..high })
}

/// The definition of a gate's net after so many through sets, if it has keys of its own there.
fn list_layer_gate(
    alloc: Global,
    frames: &Frames,
    late: &LateStart,
    layer_at: LayerAt,
    k: usize,
    clauses: &mut ClauseTable,
) -> Result<(), AllocError>
    requires late { IsLateStart late.now }
    requires layer { layer_at.layer ≤ length late.now.subject.claim.now.through }
    requires gate { k < length late.now.subject.design.now.gates }
    requires closed { IsClosed frames.now (at_place (of_late layer_gate late.now layer_at.cycle layer_at.layer) late.now.subject.design.now.gates k) }
    ensures { OnOk result (Lists frames.now (at_place (of_late layer_gate late.now layer_at.cycle layer_at.layer) late.now.subject.design.now.gates k)
        clauses.old clauses.new) }
{
    let gate = late.subject.design.gates.item(k);
    if !has_own(&late.subject, layer_at.layer, gate.out) {
        return Ok(());
    }
    let site = late_gate_site(alloc, &late.subject, layer_at.cycle, layer_at.layer + 1, k)?;
    list_site(alloc, frames, &site, late.cells.gate(k), clauses)?;
    Ok(())
}

fn list_layer_gates(
    alloc: Global,
    frames: &Frames,
    late: &LateStart,
    gates: &Seq<usize>,
    layer_at: LayerAt,
    clauses: &mut ClauseTable,
) -> Result<(), AllocError>
    requires late { IsLateStart late.now }
    requires gates { Covers frames.now layer_at.cycle (gate_points late.now.subject.design.now) gates.now }
    requires layer { layer_at.layer ≤ length late.now.subject.claim.now.through }
    requires closed { IsClosed frames.now (of_late layer_gates late.now layer_at.cycle layer_at.layer) }
    ensures { OnOk result (Lists frames.now (of_late layer_gates late.now layer_at.cycle layer_at.layer) clauses.old clauses.new) }
{
    for j in 0..gates.len() {
        list_layer_gate(alloc, frames, late, layer_at, gates.at(j), clauses)?;
    }
    Ok(())
}

/// That a net of the start may be 1 and may be 0.
fn list_start_net(
    alloc: Global,
    frames: &Frames,
    cycle: usize,
    net: usize,
    clauses: &mut ClauseTable,
) -> Result<(), AllocError>
    requires closed { IsClosed frames.now (start_net cycle net) }
    ensures { OnOk result (Lists frames.now (start_net cycle net) clauses.old clauses.new) }
{
    let (high, low) = rails_of(cycle, 1, net);
    list_unit(alloc, frames, true, high, clauses)?;
    list_unit(alloc, frames, true, low, clauses)?;
    Ok(())
}

fn list_start_nets(
    alloc: Global,
    frames: &Frames,
    starts: &Seq<usize>,
    cycle: usize,
    clauses: &mut ClauseTable,
) -> Result<(), AllocError>
    requires closed { IsClosed frames.now (flat_map (start_net cycle) starts.now) }
    ensures { OnOk result (Lists frames.now (flat_map (start_net cycle) starts.now) clauses.old clauses.new) }
{
    for j in 0..starts.len() {
        list_start_net(alloc, frames, cycle, starts.at(j), clauses)?;
    }
    Ok(())
}

/// The nets of the start, in the layer that has come through no set, where hazards count.
fn list_starts(
    alloc: Global,
    frames: &Frames,
    late: &LateStart,
    layer_at: LayerAt,
    clauses: &mut ClauseTable,
) -> Result<(), AllocError>
    requires late { IsLateStart late.now }
    requires closed { IsClosed frames.now (start_units late.now.subject.design.now late.now.subject.claim.now layer_at.cycle layer_at.layer) }
    ensures { OnOk result (Lists frames.now (start_units late.now.subject.design.now late.now.subject.claim.now layer_at.cycle layer_at.layer)
        clauses.old clauses.new) }
{
    if layer_at.layer > 0 || !late.subject.claim.hazard {
        return Ok(());
    }
    list_start_nets(alloc, frames, &late.nets, layer_at.cycle, clauses)
}

/// The definitions of a cycle after so many through sets.
fn list_layer(
    alloc: Global,
    frames: &Frames,
    late: &LateStart,
    gates: &Seq<usize>,
    layer_at: LayerAt,
    clauses: &mut ClauseTable,
) -> Result<(), AllocError>
    requires late { IsLateStart late.now }
    requires gates { Covers frames.now layer_at.cycle (gate_points late.now.subject.design.now) gates.now }
    requires layer { layer_at.layer ≤ length late.now.subject.claim.now.through }
    requires closed { IsClosed frames.now (of_late layer_definitions late.now layer_at.cycle layer_at.layer) }
    ensures { OnOk result (Lists frames.now (of_late layer_definitions late.now layer_at.cycle layer_at.layer) clauses.old clauses.new) }
{
    list_starts(alloc, frames, late, layer_at, clauses)?;
    list_layer_gates(alloc, frames, late, gates, layer_at, clauses)?;
    Ok(())
}

/// The definitions of nets in the layers of a cycle, from the layer that has come through no set to that of all sets.
pub fn list_layers(
    alloc: Global,
    frames: &Frames,
    late: &LateStart,
    gates: &Seq<usize>,
    cycle: usize,
    clauses: &mut ClauseTable,
) -> Result<(), AllocError>
    requires late { IsLateStart late.now }
    requires gates { Covers frames.now cycle (gate_points late.now.subject.design.now) gates.now }
    requires closed { IsClosed frames.now (of_late all_layers late.now cycle) }
    ensures { OnOk result (Lists frames.now (of_late all_layers late.now cycle) clauses.old clauses.new) }
{
    for layer in 0..late.subject.claim.through.len() + 1 {
        let layer_at = LayerAt { cycle, layer };
        list_layer(alloc, frames, late, gates, layer_at, clauses)?;
    }
    Ok(())
}
