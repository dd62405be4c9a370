//! Whether a violation is shown firm.
ghost use Rattle.std.specs.Prelude.{◌≡◌, ◌<◌, ◌+◌, ◌↔◌, IsTrue, IfOk, MatchOption, Bool, All};
ghost use Rattle.net_model.specs.Netlist.{IsSound};
ghost use Rattle.net_model.specs.Fits.{Fits, IsStartIn};
ghost use Rattle.net_model.specs.Stimuli.{IsLawful};
ghost use Rattle.net_model.specs.Judge as judge;
ghost use Rattle.firm_runs.specs.Cycles3 as cycles;
ghost use Rattle.firm_runs.specs.Cycles3.{IsSettled3};
ghost use Rattle.firm_runs.specs.Firm.{IsKnownChange, IsKnownViolated, IsShownFirm};

use crate::bads::is_bad3;
use crate::cycles::Cycle3;
use crate::free_bits::FreeBits;
use crate::runs::known_run;
use net_model::{Claim, Design, Edge, Start, Stimulus, Tern};
use sdcv_base::Seq;
use std::alloc::{AllocError, Global};

/// Whether a change of the start from the stale bit has the edge.
fn has_edge(edge: Edge, stale: bool) -> bool
    ensures { IsTrue result ↔ judge.IsEdge edge stale }
{
    match edge {
        Edge::Any => true,
        Edge::Rise => !stale,
        Edge::Fall => stale,
    }
}

/// The value of a start in a cycle.
fn start_value(design: &Design, start: &Start, cycle: &Cycle3) -> Tern
    requires in_range { IsStartIn design.now start.now }
    requires settled { IsSettled3 design.now cycle.now }
    ensures { result ≡ cycles.start_value start.now cycle.now }
{
    match start {
        Start::Reg(reg) => cycle.bits.at(*reg),
        Start::Input(input) => cycle.ins.at(*input),
    }
}

/// The bit from which the start is known to change, with the claim's edge.
fn stale_bit(claim: &Claim, before: Tern, now: Tern) -> Option<bool>
    ensures { MatchOption result ((stale : Bool) → ¬ IsKnownChange claim.now.edge before now stale) (IsKnownChange claim.now.edge before now) }
{
    let stale = match (before, now) {
        (Tern::Zero, Tern::One) => false,
        (Tern::One, Tern::Zero) => true,
        _ => return None,
    };
    if has_edge(claim.edge, stale) {
        Some(stale)
    } else {
        None
    }
}

/// Whether what is known of a run is violated at t.
fn is_known_violated(
    alloc: Global,
    design: &Design,
    claim: &Claim,
    run: &Seq<Cycle3>,
    t: usize,
) -> Result<bool, AllocError>
    requires sound { IsSound design.now }
    requires fits { Fits design.now claim.now }
    requires settled { All (IsSettled3 design.now) run.now }
    requires is_live { design.now.reset_len < t }
    ensures { IfOk result (λ violated. IsTrue violated ↔ IsKnownViolated design.now claim.now run.now t) }
{
    if t >= run.len() {
        return Ok(false);
    }
    let before = start_value(design, &claim.start, run.item(t - 1));
    let now = start_value(design, &claim.start, run.item(t));
    let Some(stale) = stale_bit(claim, before, now) else {
        return Ok(false);
    };
    let judged = claim.judged_count().min(run.len() - t);
    for r in 0..judged {
        let before = run.item(t + r - 1);
        let cycle = run.item(t + r);
        let bad = is_bad3(alloc, design, claim, stale, before, cycle)?;
        if bad {
            return Ok(true);
        }
    }
    Ok(false)
}

/// Whether the violation that a stimulus shows at an offset is shown firm by three values.
///
/// Offsets count from the first cycle in which a start can toggle.
pub fn shows_firm(
    alloc: Global,
    design: &Design,
    free: &FreeBits,
    claim: &Claim,
    stimulus: &Stimulus,
    offset: usize,
) -> Result<bool, AllocError>
    requires sound { IsSound design.now }
    requires fits { Fits design.now claim.now }
    requires lawful { IsLawful design.now stimulus.now }
    ensures { IfOk result (λ firm. IsTrue firm ↔ IsShownFirm design.now free.now claim.now stimulus.now (design.now.reset_len + 1 + offset)) }
{
    if free.is_sink(&claim.end) || offset >= stimulus.inputs.len() {
        return Ok(false);
    }
    let run = known_run(alloc, design, free, stimulus)?;
    let violated = is_known_violated(alloc, design, claim, &run, design.reset_len + 1 + offset)?;
    Ok(violated)
}
