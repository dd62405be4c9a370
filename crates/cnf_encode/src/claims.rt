//! All definitions of a query, cycle by cycle.
ghost use Rattle.std.specs.Prelude.{◌≡◌, ◌<◌, ◌≤◌, ◌^◌, flat_map, OnOk};
ghost use Rattle.query_model.specs.Keys.{below};
ghost use Rattle.query_model.specs.Defined.{claim_definitions};
ghost use Rattle.cnf_encode.specs.Listed.{IsClosed, Lists, claim_cycle, clause_cycle};
ghost use Rattle.cnf_encode.specs.Coned.{Covers, IsConeOf, IsConeFor, gate_points, of_cone};
ghost use Rattle.cnf_encode.specs.Late.{IsLateStart, of_late};

use crate::cones::Cone;
use crate::cycles::list_cycle;
use crate::ends::list_end;
use crate::late_starts::LateStart;
use crate::layers::list_layers;
use crate::points::list_points;
use frame_unroll::Frames;
use proof_log::ClauseTable;
use sdcv_base::Seq;
use std::alloc::{AllocError, Global};

/// The definitions of a cycle that only a claim asks of: its layers with a late start, the late capture, and the points
/// by which it is judged.
fn list_late(
    alloc: Global,
    frames: &Frames,
    late: &LateStart,
    gates: &Seq<usize>,
    cycle: usize,
    clauses: &mut ClauseTable,
) -> Result<(), AllocError>
    requires late { IsLateStart late.now }
    requires gates { Covers frames.now cycle (gate_points late.now.subject.design.now) gates.now }
    requires cycle { cycle < 2 ^ 32 }
    requires closed { IsClosed frames.now (of_late claim_definitions late.now cycle) }
    ensures { OnOk result (Lists frames.now (of_late claim_definitions late.now cycle) clauses.old clauses.new) }
{
    list_layers(alloc, frames, late, gates, cycle, clauses)?;
    list_end(alloc, frames, late, cycle, clauses)?;
    list_points(alloc, frames, &late.subject, cycle, clauses)?;
    Ok(())
}

fn list_claim_cycle(
    alloc: Global,
    frames: &Frames,
    late: &LateStart,
    cone: &Cone,
    cycle: usize,
    clauses: &mut ClauseTable,
) -> Result<(), AllocError>
    requires late { IsLateStart late.now }
    requires cone { IsConeFor frames.now cycle cone.now }
    requires same { cone.now.design.now ≡ late.now.subject.design.now }
    requires coding { cone.now.cells.now.list.coding ≡ late.now.cells.now.list.coding }
    requires cycle { cycle < 2 ^ 32 }
    requires closed { IsClosed frames.now (of_late claim_cycle late.now cone.now.live cycle) }
    ensures { OnOk result (Lists frames.now (of_late claim_cycle late.now cone.now.live cycle) clauses.old clauses.new) }
{
    let gates = cone.gates.item(cycle);
    list_cycle(alloc, frames, cone, cycle, clauses)?;
    list_late(alloc, frames, late, gates, cycle, clauses)?;
    Ok(())
}

/// The definitions of all cycles of a query about a claim.
pub fn list_claim_cycles(
    alloc: Global,
    frames: &Frames,
    late: &LateStart,
    cone: &Cone,
    cycles: usize,
    clauses: &mut ClauseTable,
) -> Result<(), AllocError>
    requires late { IsLateStart late.now }
    requires cone { IsConeOf frames.now cycles cone.now }
    requires same { cone.now.design.now ≡ late.now.subject.design.now }
    requires coding { cone.now.cells.now.list.coding ≡ late.now.cells.now.list.coding }
    requires cycles { cycles ≤ 2 ^ 32 }
    requires closed { IsClosed frames.now (flat_map (of_late claim_cycle late.now cone.now.live) (below cycles)) }
    ensures { OnOk result (Lists frames.now (flat_map (of_late claim_cycle late.now cone.now.live) (below cycles)) clauses.old clauses.new) }
{
    for cycle in 0..cycles {
        list_claim_cycle(alloc, frames, late, cone, cycle, clauses)?;
    }
    Ok(())
}

/// The definitions of all cycles of a query about a clause.
pub fn list_clause_cycles(
    alloc: Global,
    frames: &Frames,
    cone: &Cone,
    cycles: usize,
    clauses: &mut ClauseTable,
) -> Result<(), AllocError>
    requires cone { IsConeOf frames.now cycles cone.now }
    requires cycles { cycles ≤ 2 ^ 32 }
    requires closed { IsClosed frames.now (flat_map (of_cone clause_cycle cone.now cone.now.live) (below cycles)) }
    ensures { OnOk result (Lists frames.now (flat_map (of_cone clause_cycle cone.now cone.now.live) (below cycles)) clauses.old clauses.new) }
{
    for cycle in 0..cycles {
        list_cycle(alloc, frames, cone, cycle, clauses)?;
    }
    Ok(())
}
