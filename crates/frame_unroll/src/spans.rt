//! How many cycles a query has.
ghost use Rattle.std.specs.Prelude.{◌≡◌, ◌≤◌, ◌+◌};
ghost use Rattle.net_model.specs.Judge as judge;
ghost use Rattle.net_model.specs.Netlist.{IsSound};
ghost use Rattle.net_model.specs.Fits.{Fits};
ghost use Rattle.net_model.specs.Queries as queries;

use net_model::{Claim, Design, Phase};

/// The cycles of a query: those below `live` have active resets, and the kept clauses hold in those below `kept_below`.
#[derive(Debug, Clone, Copy, PartialEq, Eq)]
pub struct Span {
    pub live: usize,
    pub cycles: usize,
    pub kept_below: usize,
}

/// The cycles with active resets.
fn live_of(design: &Design, phase: Phase) -> usize
    ensures { result ≡ queries.live_of design.now phase }
{
    match phase {
        Phase::Base => design.reset_len,
        Phase::Step => 0,
    }
}

/// In a stretch the number itself, and in a run from reset none.
pub fn only_in_step(phase: Phase, count: usize) -> usize
    ensures { result ≡ queries.only_in_step phase count }
{
    match phase {
        Phase::Base => 0,
        Phase::Step => count,
    }
}

/// The cycles in which it is asked whether a claim is violated at a depth.
pub fn claim_span(design: &Design, claim: &Claim, phase: Phase, depth: usize) -> Span
    requires sound { IsSound design.now }
    requires fits { Fits design.now claim.now }
    requires few { depth ≤ 64 }
    ensures live { result.live ≡ queries.live_of design.now phase }
    ensures cycles { result.cycles ≡ queries.live_of design.now phase + depth + 1 + judge.judged_count claim.now }
    ensures kept { result.kept_below ≡ queries.only_in_step phase result.cycles }
    ensures few { (result.live ≤ 64) × (result.cycles ≤ 144) }
{
    let live = live_of(design, phase);
    let cycles = live + depth + 1 + claim.judged_count();
    Span {
        live,
        cycles,
        kept_below: only_in_step(phase, cycles),
    }
}

/// The cycles in which it is asked whether a clause fails at a depth.
pub fn clause_span(design: &Design, phase: Phase, depth: usize) -> Span
    requires sound { IsSound design.now }
    requires few { depth ≤ 64 }
    ensures live { result.live ≡ queries.live_of design.now phase }
    ensures cycles { result.cycles ≡ queries.live_of design.now phase + depth + 1 }
    ensures kept { result.kept_below ≡ queries.only_in_step phase depth }
    ensures few { (result.live ≤ 64) × (result.cycles ≤ 129) }
{
    let live = live_of(design, phase);
    Span {
        live,
        cycles: live + depth + 1,
        kept_below: only_in_step(phase, depth),
    }
}
