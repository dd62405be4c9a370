//! The whole monitor of a claim.
ghost use Rattle.std.specs.Prelude.{◌≡◌, false, OnOk, IfOk};
ghost use Rattle.net_model.specs.Netlist.{IsSound};
ghost use Rattle.net_model.specs.Fits.{Fits};
ghost use Rattle.and_graphs.specs.Graphs.{Keeps};
ghost use Rattle.claim_monitor.specs.Fronts.{front_count, sizes_of};
ghost use Rattle.claim_monitor.specs.Shown.{AreLiteralsFor};
ghost use Rattle.claim_monitor.specs.Captured.{AreCaptureLiterals};
ghost use Rattle.claim_monitor.specs.Histories.{AreJudged};
ghost use Rattle.claim_monitor.specs.Watches.{Watches};

use crate::bads::{Judged, bad_literal, early_literal, toggle_literal};
use crate::captures::{end_literal, next_literals};
use crate::cycle_literals::{Literals, literals_of, start_literal};
use crate::histories::latches_of;
use crate::sizes::Sizes;
use and_graphs::{Aig, AndGraph};
use net_model::{Claim, Design};
use sdcv_base::Seq;
use std::alloc::{AllocError, Global};

/// The literals that a claim is judged by in a cycle, given those of the cycle and of what registers capture.
fn judged_literals(
    design: &Design,
    claim: &Claim,
    literals: &Literals,
    captures: &Seq<u64>,
    graph: &mut AndGraph,
) -> Result<Judged, AllocError>
    requires sound { IsSound design.now }
    requires fits { Fits design.now claim.now }
    requires front { graph.old.front ≡ front_count (sizes_of design.now claim.now) }
    requires literals { AreLiteralsFor graph.old design.now literals.now }
    requires captures { AreCaptureLiterals graph.old design.now literals.now captures.now }
    ensures keeps { OnOk result (Keeps graph.old graph.new) }
    ensures judged { IfOk result (AreJudged graph.new design.now claim.now literals.now) }
{
    let sizes = Sizes::of(design, claim);
    let start = start_literal(design, literals, &claim.start);
    let capture = end_literal(design, literals, captures, &claim.end);
    let toggle = toggle_literal(claim.edge, start, &sizes, graph)?;
    Ok(Judged {
        start,
        toggle,
        capture,
    })
}

/// The graph that watches a claim: its inputs are the free inputs of the design, in order, its first latches the registers, and its
/// bad literal is 1 in exactly the steps in which a run is caught.
pub fn watch(alloc: Global, design: &Design, claim: &Claim) -> Result<Aig, AllocError>
    requires sound { IsSound design.now }
    requires fits { Fits design.now claim.now }
    requires plain { claim.now.hazard ≡ false }
    ensures { IfOk result (Watches design.now claim.now) }
{
    let sizes = Sizes::of(design, claim);
    let mut graph = AndGraph::new(alloc, sizes.front());
    let literals = literals_of(alloc, design, &sizes, &mut graph)?;
    let captures = next_literals(alloc, design, &literals, &mut graph)?;
    let judged = judged_literals(design, claim, &literals, &captures, &mut graph)?;
    let bad = bad_literal(alloc, design, claim, &literals, &judged, &mut graph)?;
    let early = early_literal(alloc, design, claim, &literals, &judged, &mut graph)?;
    let latches = latches_of(alloc, &sizes, &captures, &judged, early, &graph)?;
    let AndGraph { lines, .. } = graph;
    Ok(Aig {
        inputs: sizes.inputs,
        latches,
        bad,
        lines,
    })
}
