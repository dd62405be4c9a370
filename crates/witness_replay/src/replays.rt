//! Which toggle of a run is the first to violate a claim.
ghost use Rattle.std.specs.Prelude.{◌≡◌, ◌<◌, ◌↔◌, IsTrue, IfOk, IfErr, All, length};
ghost use Rattle.net_model.specs.Netlist.{IsSound};
ghost use Rattle.net_model.specs.Fits.{Fits};
ghost use Rattle.net_model.specs.Cycles.{IsSettled};
ghost use Rattle.net_model.specs.Judge as judge;
ghost use Rattle.net_model.specs.Stimuli.{IsLawful};
ghost use Rattle.witness_replay.specs.Rooms.{AreRoomsFor};
ghost use Rattle.witness_replay.specs.Replays.{IsFirstViolation, IsReplay, IsReplayCause};

use crate::bads::{Rooms, is_bad};
use crate::faults::ReplayFault;
use crate::outcomes::Replay;
use crate::shapes::{first_unlawful, has_shape};
use net_model::{Claim, Cycle, Design, Edge, Stimulus};
use net_sim::linked_run;
use sdcv_base::Seq;
use std::alloc::{AllocError, Global};

/// Whether a change of the start from the stale bit has the edge.
fn has_edge(edge: Edge, stale: bool) -> bool
    ensures { IsTrue result ↔ judge.IsEdge edge stale }
{
    match edge {
        Edge::Any => true,
        Edge::Rise => !stale,
        Edge::Fall => stale,
    }
}

/// Whether the run violates the claim at t.
fn is_violated_at(
    design: &Design,
    claim: &Claim,
    run: &Seq<Cycle>,
    t: usize,
    rooms: &mut Rooms,
) -> bool
    requires sound { IsSound design.now }
    requires fits { Fits design.now claim.now }
    requires settled { All (IsSettled design.now) run.now }
    requires in_run { t < length run.now }
    requires rooms { AreRoomsFor design.now rooms.old }
    ensures means { IsTrue result ↔ judge.IsViolatedAt design.now.reset_len design.now claim.now run.now t }
    ensures rooms { AreRoomsFor design.now rooms.new }
{
    if t <= design.reset_len {
        return false;
    }
    let stale = run.item(t - 1).start_bit(design, &claim.start);
    if run.item(t).start_bit(design, &claim.start) == stale {
        return false;
    }
    if !has_edge(claim.edge, stale) {
        return false;
    }
    let judged = claim.judged_count().min(run.len() - t);
    for r in 0..judged {
        let before = run.item(t + r - 1);
        let cycle = run.item(t + r);
        if is_bad(design, claim, stale, before, cycle, rooms) {
            return true;
        }
    }
    false
}

/// The first toggle of a run that violates the claim.
fn first_violation(design: &Design, claim: &Claim, run: &Seq<Cycle>, rooms: &mut Rooms) -> Replay
    requires sound { IsSound design.now }
    requires fits { Fits design.now claim.now }
    requires settled { All (IsSettled design.now) run.now }
    requires rooms { AreRoomsFor design.now rooms.old }
    ensures { IsFirstViolation design.now claim.now run.now result }
{
    for t in 0..run.len() {
        if is_violated_at(design, claim, run, t, rooms) {
            return Replay::Violated(t);
        }
    }
    Replay::Holds
}

/// Replays a lawful stimulus.
fn replay_lawful(
    alloc: Global,
    design: &Design,
    claim: &Claim,
    stimulus: &Stimulus,
) -> Result<Replay, AllocError>
    requires sound { IsSound design.now }
    requires fits { Fits design.now claim.now }
    requires lawful { IsLawful design.now stimulus.now }
    ensures { IfOk result (IsReplay design.now claim.now stimulus.now) }
{
    let run = linked_run(alloc, design, stimulus)?;
    let mut rooms = Rooms::new(alloc, design)?;
    Ok(first_violation(design, claim, &run, &mut rooms))
}

/// Replays a stimulus: the least t at which its run violates the claim. Toggles count from the first cycle after the one
/// in which resets become inactive.
///
/// `Shape` where its numbers of bits are not the design's, `NotReset` with the first cycle in which a reset or fixed input
/// has another value.
pub fn replay(
    alloc: Global,
    design: &Design,
    claim: &Claim,
    stimulus: &Stimulus,
) -> Result<Replay, ReplayFault>
    requires sound { IsSound design.now }
    requires fits { Fits design.now claim.now }
    ensures ok { IfOk result (IsReplay design.now claim.now stimulus.now) }
    ensures err { IfErr result (IsReplayCause design.now stimulus.now) }
{
    if !has_shape(design, stimulus) {
        return Err(ReplayFault::Shape);
    }
    match first_unlawful(design, stimulus) {
        Some(cycle) => Err(ReplayFault::NotReset(cycle)),
        None => Ok(replay_lawful(alloc, design, claim, stimulus)?),
    }
}
