//! Whether a run is caught in a cycle, as a literal.
ghost use Rattle.std.specs.Prelude.{◌≡◌, ◌<◌, ◌&&◌, ℕ, true, false, Bool, List, OnOk, IfOk, length};
ghost use Rattle.net_model.specs.Form.{xor};
ghost use Rattle.net_model.specs.Netlist.{IsSound};
ghost use Rattle.net_model.specs.Fits.{Fits};
ghost use Rattle.net_model.specs.Cycles.{bit_at, capture as capture_of};
ghost use Rattle.net_model.specs.Judge.{judged_count, start_bit};
ghost use Rattle.net_model.specs.declared.cycles.Cycle.{Cycle as CycleRecord};
ghost use Rattle.net_model.specs.declared.claims.Start.{Start as StartRecord};
ghost use Rattle.sdcv_base.specs.declared.kinds.Edge.{Edge as EdgeRecord};
ghost use Rattle.and_graphs.specs.Graphs.{Means, Keeps};
ghost use Rattle.and_graphs.specs.declared.graphs.AndGraph.{AndGraph as Graph};
ghost use Rattle.claim_monitor.specs.Fronts.{AreSmall, front_count, live_place, start_place, early_place, sizes_of};
ghost use Rattle.claim_monitor.specs.Shown.{AreIn, AreLiteralsFor, shown_cycle};
ghost use Rattle.claim_monitor.specs.Tells.{edge_bit, toggle_bit, toggled, captured, stale_bit, some_stale, changes_bit};
ghost use Rattle.claim_monitor.specs.Tells as tells;
ghost use Rattle.claim_monitor.specs.Judgings.{LateLiteral, EarlyLiteral, BadLiteral};

use crate::cycle_literals::Literals;
use crate::lates::flipped_literal;
use crate::sizes::Sizes;
use and_graphs::{AndGraph, bit_literal, complement};
use net_model::{Claim, Design, Edge, End, Kind};
use std::alloc::{AllocError, Global};

/// The literals that a claim is judged by in a cycle: its start, the toggle of its start, and its end's capture.
#[derive(Clone, Copy)]
pub(crate) struct Judged {
    pub start: u64,
    pub toggle: u64,
    pub capture: u64,
}

/// The literal that is 1 where a change from a stale bit has the edge.
fn edge_literal(edge: Edge, stale: u64) -> u64
    ensures { (g : Graph) (f : List Bool → Bool) → Means g stale f → Means g result (λ x. edge_bit edge (f x)) }
{
    match edge {
        Edge::Any => bit_literal(true),
        Edge::Rise => complement(stale),
        Edge::Fall => stale,
    }
}

/// The literal that is 1 where the start toggles: the cycle before was live, and the start's bit there, the stale bit, differs.
/// Without judged captures no toggle counts.
pub(crate) fn toggle_literal(
    edge: Edge,
    start: u64,
    sizes: &Sizes,
    graph: &mut AndGraph,
) -> Result<u64, AllocError>
    requires small { AreSmall sizes.now }
    requires front { graph.old.front ≡ front_count sizes.now }
    ensures keeps { OnOk result (Keeps graph.old graph.new) }
    ensures means { IfOk result (λ l. 0 < sizes.now.judged → (f : List Bool → Bool) → Means graph.old start f
        → Means graph.new l (λ x. bit_at x (live_place sizes.now) && (xor (f x) (bit_at x (start_place sizes.now 0)) && edge_bit edge
        (bit_at x (start_place sizes.now 0))))) }
{
    if sizes.judged == 0 {
        return Ok(bit_literal(false));
    }
    let was_live = graph.variable(sizes.live())?;
    let stale = graph.variable(sizes.starts())?;
    let differs = graph.differs(start, stale)?;
    let moves = graph.both(differs, edge_literal(edge, stale))?;
    let toggles = graph.both(was_live, moves)?;
    Ok(toggles)
}

/// Whether the late capture counts: for a false path, and where there are through sets.
fn has_late(claim: &Claim) -> bool
    ensures { result ≡ tells.has_late claim.now.kind claim.now.through }
{
    match claim.kind {
        Kind::False => true,
        Kind::Multi(_) => !claim.through.is_empty(),
    }
}

/// The literal of the toggle r cycles before.
fn toggle_before(r: u64, now: u64, sizes: &Sizes, graph: &AndGraph) -> Result<u64, AllocError>
    requires small { AreSmall sizes.now }
    requires front { graph.now.front ≡ front_count sizes.now }
    requires judged { r < sizes.now.judged }
    ensures { IfOk result (λ l. (edge : EdgeRecord) (start : StartRecord) (c : List Bool → CycleRecord)
        → Means graph.now now (λ x. toggle_bit sizes.now edge start x (c x)) → Means graph.now l (λ x. toggled sizes.now edge start x (c x) r)) }
{
    if r == 0 {
        return Ok(now);
    }
    let toggle = graph.variable(sizes.toggles() + (r - 1))?;
    Ok(toggle)
}

/// The literal that is 1 where the start toggled r cycles before, and, where the late capture counts, its bit is not the one
/// that was stale then.
fn stale_literal(
    claim: &Claim,
    judged: &Judged,
    sizes: &Sizes,
    r: u64,
    graph: &mut AndGraph,
) -> Result<u64, AllocError>
    requires small { AreSmall sizes.now }
    requires front { graph.old.front ≡ front_count sizes.now }
    requires judged { r < sizes.now.judged }
    ensures keeps { OnOk result (Keeps graph.old graph.new) }
    ensures means { IfOk result (λ l. (c : List Bool → CycleRecord) → Means graph.old judged.now.start (λ x. start_bit claim.now.start (c x))
        → Means graph.old judged.now.toggle (λ x. toggle_bit sizes.now claim.now.edge claim.now.start x (c x))
        → Means graph.new l (λ x. stale_bit sizes.now claim.now x (c x) r)) }
{
    let toggle = toggle_before(r, judged.toggle, sizes, graph)?;
    if !has_late(claim) {
        return Ok(toggle);
    }
    let stale = graph.variable(sizes.starts() + r)?;
    let differs = graph.differs(judged.start, stale)?;
    let both = graph.both(toggle, differs)?;
    Ok(both)
}

/// The literal that is 1 where that is so for some toggle whose captures are judged.
fn stale_literals(
    claim: &Claim,
    judged: &Judged,
    sizes: &Sizes,
    graph: &mut AndGraph,
) -> Result<u64, AllocError>
    requires small { AreSmall sizes.now }
    requires front { graph.old.front ≡ front_count sizes.now }
    ensures keeps { OnOk result (Keeps graph.old graph.new) }
    ensures means { IfOk result (λ l. (c : List Bool → CycleRecord) → Means graph.old judged.now.start (λ x. start_bit claim.now.start (c x))
        → (0 < sizes.now.judged → Means graph.old judged.now.toggle (λ x. toggle_bit sizes.now claim.now.edge claim.now.start x (c x)))
        → Means graph.new l (λ x. some_stale sizes.now claim.now x (c x) sizes.now.judged)) }
{
    let mut some = bit_literal(false);
    for r in 0..sizes.judged {
        let stale = stale_literal(claim, judged, sizes, r, graph)?;
        some = graph.either(some, stale)?;
    }
    Ok(some)
}

/// The literal of the capture in the cycle before, of a multicycle path.
fn before_literal(
    claim: &Claim,
    literals: &Literals,
    sizes: &Sizes,
    graph: &AndGraph,
) -> Result<u64, AllocError>
    requires small { AreSmall sizes.now }
    requires front { graph.now.front ≡ front_count sizes.now }
    requires regs { (r : ℕ) → claim.now.end ≡ End.Reg r → r < length literals.now.bits }
    requires output { (o : ℕ) → claim.now.end ≡ End.Output o → sizes.now.has_capture ≡ true }
    ensures { IfOk result (λ l. AreIn graph.now literals.now.bits
        → Means graph.now l (λ x. captured sizes.now claim.now.end x (shown_cycle graph.now x literals.now))) }
{
    match claim.end {
        End::Reg(r) => Ok(literals.bits.at(r)),
        End::Output(_) => {
            let before = graph.variable(sizes.capture())?;
            Ok(before)
        }
    }
}

/// The literal that is 1 where the capture changes, which counts for a multicycle path alone.
fn change_literal(
    design: &Design,
    claim: &Claim,
    literals: &Literals,
    capture: u64,
    graph: &mut AndGraph,
) -> Result<u64, AllocError>
    requires sound { IsSound design.now }
    requires fits { Fits design.now claim.now }
    requires front { graph.old.front ≡ front_count (sizes_of design.now claim.now) }
    requires literals { AreLiteralsFor graph.old design.now literals.now }
    requires capture { Means graph.old capture (λ x. capture_of design.now claim.now.end (shown_cycle graph.old x literals.now)) }
    ensures keeps { OnOk result (Keeps graph.old graph.new) }
    ensures means { IfOk result (λ l. Means graph.new l (λ x. changes_bit claim.now.kind
        (capture_of design.now claim.now.end (shown_cycle graph.old x literals.now))
        (captured (sizes_of design.now claim.now) claim.now.end x (shown_cycle graph.old x literals.now)))) }
{
    match claim.kind {
        Kind::False => Ok(bit_literal(true)),
        Kind::Multi(_) => {
            let sizes = Sizes::of(design, claim);
            let before = before_literal(claim, literals, &sizes, graph)?;
            let differs = graph.differs(capture, before)?;
            Ok(differs)
        }
    }
}

/// The literal that tells whether the capture with the start flipped differs, and is 1 where that doesn't count.
fn late_literal(
    alloc: Global,
    design: &Design,
    claim: &Claim,
    literals: &Literals,
    judged: &Judged,
    graph: &mut AndGraph,
) -> Result<u64, AllocError>
    requires sound { IsSound design.now }
    requires fits { Fits design.now claim.now }
    requires literals { AreLiteralsFor graph.old design.now literals.now }
    requires start { Means graph.old judged.now.start (λ x. start_bit claim.now.start (shown_cycle graph.old x literals.now)) }
    requires capture { Means graph.old judged.now.capture (λ x. capture_of design.now claim.now.end (shown_cycle graph.old x literals.now)) }
    ensures keeps { OnOk result (Keeps graph.old graph.new) }
    ensures tells { IfOk result (LateLiteral graph.new design.now claim.now literals.now) }
{
    if !has_late(claim) {
        return Ok(bit_literal(true));
    }
    let flipped = flipped_literal(alloc, design, claim, literals, judged.start, graph)?;
    let differs = graph.differs(flipped, judged.capture)?;
    Ok(differs)
}

/// The literal that tells, for a claim of the early side, whether the capture with the start flipped differs. Others have 0.
pub(crate) fn early_literal(
    alloc: Global,
    design: &Design,
    claim: &Claim,
    literals: &Literals,
    judged: &Judged,
    graph: &mut AndGraph,
) -> Result<u64, AllocError>
    requires sound { IsSound design.now }
    requires fits { Fits design.now claim.now }
    requires literals { AreLiteralsFor graph.old design.now literals.now }
    requires start { Means graph.old judged.now.start (λ x. start_bit claim.now.start (shown_cycle graph.old x literals.now)) }
    requires capture { Means graph.old judged.now.capture (λ x. capture_of design.now claim.now.end (shown_cycle graph.old x literals.now)) }
    ensures keeps { OnOk result (Keeps graph.old graph.new) }
    ensures tells { IfOk result (EarlyLiteral graph.new design.now claim.now literals.now) }
{
    if !claim.early {
        return Ok(bit_literal(false));
    }
    let differs = late_literal(alloc, design, claim, literals, judged, graph)?;
    Ok(differs)
}

/// The literal that is 1 where the start toggles and the capture of the cycle before would have been another with the start flipped,
/// that is with the bit that it has now.
fn early_bad_literal(sizes: &Sizes, toggle: u64, graph: &mut AndGraph) -> Result<u64, AllocError>
    requires small { AreSmall sizes.now }
    requires front { graph.old.front ≡ front_count sizes.now }
    requires early { sizes.now.has_early ≡ true }
    ensures keeps { OnOk result (Keeps graph.old graph.new) }
    ensures means { IfOk result (λ l. (f : List Bool → Bool) → Means graph.old toggle f
        → Means graph.new l (λ x. f x && bit_at x (early_place sizes.now))) }
{
    let differed = graph.variable(sizes.early())?;
    let bad = graph.both(toggle, differed)?;
    Ok(bad)
}

/// The literal that tells, for a claim of the late side, whether the cycle is bad for a toggle before it.
fn late_bad_literal(
    alloc: Global,
    design: &Design,
    claim: &Claim,
    literals: &Literals,
    judged: &Judged,
    graph: &mut AndGraph,
) -> Result<u64, AllocError>
    requires sound { IsSound design.now }
    requires fits { Fits design.now claim.now }
    requires late { claim.now.early ≡ false }
    requires front { graph.old.front ≡ front_count (sizes_of design.now claim.now) }
    requires literals { AreLiteralsFor graph.old design.now literals.now }
    requires start { Means graph.old judged.now.start (λ x. start_bit claim.now.start (shown_cycle graph.old x literals.now)) }
    requires toggle { 0 < judged_count claim.now → Means graph.old judged.now.toggle (λ x. toggle_bit (sizes_of design.now claim.now) claim.now.edge
        claim.now.start x (shown_cycle graph.old x literals.now)) }
    requires capture { Means graph.old judged.now.capture (λ x. capture_of design.now claim.now.end (shown_cycle graph.old x literals.now)) }
    ensures keeps { OnOk result (Keeps graph.old graph.new) }
    ensures tells { IfOk result (BadLiteral graph.new design.now claim.now literals.now) }
{
    let sizes = Sizes::of(design, claim);
    let some = stale_literals(claim, judged, &sizes, graph)?;
    let changes = change_literal(design, claim, literals, judged.capture, graph)?;
    let late = late_literal(alloc, design, claim, literals, judged, graph)?;
    let here = graph.both(changes, late)?;
    let bad = graph.both(here, some)?;
    Ok(bad)
}

/// The literal that tells whether the cycle is bad for a toggle before it.
pub(crate) fn bad_literal(
    alloc: Global,
    design: &Design,
    claim: &Claim,
    literals: &Literals,
    judged: &Judged,
    graph: &mut AndGraph,
) -> Result<u64, AllocError>
    requires sound { IsSound design.now }
    requires fits { Fits design.now claim.now }
    requires front { graph.old.front ≡ front_count (sizes_of design.now claim.now) }
    requires literals { AreLiteralsFor graph.old design.now literals.now }
    requires start { Means graph.old judged.now.start (λ x. start_bit claim.now.start (shown_cycle graph.old x literals.now)) }
    requires toggle { 0 < judged_count claim.now → Means graph.old judged.now.toggle (λ x. toggle_bit (sizes_of design.now claim.now) claim.now.edge
        claim.now.start x (shown_cycle graph.old x literals.now)) }
    requires capture { Means graph.old judged.now.capture (λ x. capture_of design.now claim.now.end (shown_cycle graph.old x literals.now)) }
    ensures keeps { OnOk result (Keeps graph.old graph.new) }
    ensures tells { IfOk result (BadLiteral graph.new design.now claim.now literals.now) }
{
    let sizes = Sizes::of(design, claim);
    if sizes.has_early {
        let bad = early_bad_literal(&sizes, judged.toggle, graph)?;
        return Ok(bad);
    }
    let bad = late_bad_literal(alloc, design, claim, literals, judged, graph)?;
    Ok(bad)
}
