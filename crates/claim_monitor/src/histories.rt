//! Latches, and what those take next that keep bits of the cycles before.
ghost use Rattle.std.specs.Prelude.{◌≡◌, ◌++◌, ◌+◌, ◌≤◌, ◌<◌, ◌^◌, OnOk, IfOk, map};
ghost use Rattle.and_graphs.specs.Graphs.{IsIn, Means};
ghost use Rattle.claim_monitor.specs.Fronts.{AreSmall, front_count};
ghost use Rattle.claim_monitor.specs.Histories.{taken, IsHistory, AddsHistories, AddsEarly, AreLatches, latch_of};

use crate::bads::Judged;
use crate::sizes::Sizes;
use and_graphs::{AndGraph, Latch, bit_literal};
use sdcv_base::Seq;
use std::alloc::{AllocError, Global};

/// What latch k of a row takes next: the first one the bit of now, each other one that of the latch before it.
fn history_literal(graph: &AndGraph, now: u64, first: u64, k: u64) -> Result<u64, AllocError>
    requires now { IsIn graph.now now }
    requires in_range { first + k ≤ graph.now.front }
    requires fits { first + k < 2 ^ 64 }
    ensures { IfOk result (λ l. Means graph.now l (taken graph.now now first k)) }
{
    if k == 0 {
        return Ok(now);
    }
    let before = graph.variable(first + (k - 1))?;
    Ok(before)
}

/// What a row of latches takes next that keep a bit of the cycles before, that of the last cycle first.
fn history(
    alloc: Global,
    graph: &AndGraph,
    now: u64,
    first: u64,
    count: u64,
) -> Result<Seq<u64>, AllocError>
    requires now { 0 < count → IsIn graph.now now }
    requires in_range { first + count ≤ graph.now.front }
    requires fits { first + count < 2 ^ 64 }
    ensures { IfOk result (IsHistory graph.now now first count) }
{
    let mut row = Seq::new(alloc);
    for k in 0..count {
        let literal = history_literal(graph, now, first, k)?;
        row.push(literal)?;
    }
    Ok(row)
}

/// Adds latches that take these literals next.
fn push_latches(nexts: &Seq<u64>, is_any: bool, latches: &mut Seq<Latch>) -> Result<(), AllocError>
    ensures { OnOk result (latches.new ≡ latches.old ++ map (latch_of is_any) nexts.now) }
{
    for k in 0..nexts.len() {
        let next = nexts.at(k);
        latches.push(Latch { next, is_any })?;
    }
    Ok(())
}

/// Adds the latches after those of the registers: of the reset's cycles and the live one after them, of the start's bits, of its
/// toggles, and of the end's capture. All begin with 0.
fn push_histories(
    alloc: Global,
    sizes: &Sizes,
    judged: &Judged,
    graph: &AndGraph,
    latches: &mut Seq<Latch>,
) -> Result<(), AllocError>
    requires small { AreSmall sizes.now }
    requires front { graph.now.front ≡ front_count sizes.now }
    requires start { IsIn graph.now judged.now.start }
    requires toggle { 0 < sizes.now.judged → IsIn graph.now judged.now.toggle }
    requires capture { IsIn graph.now judged.now.capture }
    ensures { OnOk result (AddsHistories graph.now sizes.now judged.now latches.old latches.new) }
{
    let live = history(
        alloc,
        graph,
        bit_literal(true),
        sizes.resets(),
        sizes.resets + 1,
    )?;
    let starts = history(alloc, graph, judged.start, sizes.starts(), sizes.judged)?;
    let toggles = history(
        alloc,
        graph,
        judged.toggle,
        sizes.toggles(),
        sizes.toggle_count(),
    )?;
    let captures = history(
        alloc,
        graph,
        judged.capture,
        sizes.capture(),
        sizes.capture_count(),
    )?;
    push_latches(&live, false, latches)?;
    push_latches(&starts, false, latches)?;
    push_latches(&toggles, false, latches)?;
    push_latches(&captures, false, latches)
}

/// Adds the latch of a claim of the early side, which takes this literal next and begins with 0. For others there is none.
fn push_early(
    alloc: Global,
    sizes: &Sizes,
    early: u64,
    graph: &AndGraph,
    latches: &mut Seq<Latch>,
) -> Result<(), AllocError>
    requires small { AreSmall sizes.now }
    requires front { graph.now.front ≡ front_count sizes.now }
    requires early { IsIn graph.now early }
    ensures { OnOk result (AddsEarly graph.now sizes.now early latches.old latches.new) }
{
    let row = history(alloc, graph, early, sizes.early(), sizes.early_count())?;
    push_latches(&row, false, latches)
}

/// All latches: those of the registers, which begin with any bit and take these captures next, and those after them.
pub(crate) fn latches_of(
    alloc: Global,
    sizes: &Sizes,
    captures: &Seq<u64>,
    judged: &Judged,
    early: u64,
    graph: &AndGraph,
) -> Result<Seq<Latch>, AllocError>
    requires small { AreSmall sizes.now }
    requires front { graph.now.front ≡ front_count sizes.now }
    requires start { IsIn graph.now judged.now.start }
    requires toggle { 0 < sizes.now.judged → IsIn graph.now judged.now.toggle }
    requires capture { IsIn graph.now judged.now.capture }
    requires early { IsIn graph.now early }
    ensures { IfOk result (AreLatches graph.now sizes.now captures.now judged.now early) }
{
    let mut latches = Seq::new(alloc);
    push_latches(captures, true, &mut latches)?;
    push_histories(alloc, sizes, judged, graph, &mut latches)?;
    push_early(alloc, sizes, early, graph, &mut latches)?;
    Ok(latches)
}
