//! The run that violates a claim, and where.
ghost use Rattle.std.specs.Prelude.{◌≡◌, ◌+◌, ◌^◌, ◌<◌, IfOk, IfErr, IfSome, MatchOption, All, length};
ghost use Rattle.net_model.specs.Netlist.{IsSound};
ghost use Rattle.net_model.specs.Fits.{Fits};
ghost use Rattle.net_model.specs.Cycles.{IsSettled};
ghost use Rattle.net_model.specs.Judge.{IsViolatedAt};
ghost use Rattle.witness_replay.specs.Replays.{IsReplayCause};
ghost use Rattle.witness_replay.specs.Rooms.{AreRoomsFor};
ghost use Rattle.run_views.specs.Violations as spec;
ghost use Rattle.run_views.specs.Violations.{IsFirstBad, IsShowable, IsViolation, NeverViolated};

use crate::outcomes::Violation;
use net_model::{Claim, Cycle, Design, Stimulus};
use net_sim::linked_run;
use sdcv_base::Seq;
use std::alloc::Global;
use witness_replay::{Replay, ReplayFault, Rooms, is_bad, replay};

/// The cycle whose capture is judged as the one that is `r` cycles after a toggle.
fn judged_cycle(claim: &Claim, toggle: usize, r: usize) -> usize
    requires { toggle + r < 2 ^ 64 }
    ensures { result ≡ spec.judged_cycle claim.now.early toggle r }
{
    let cycle = toggle + r;
    if claim.early {
        cycle.saturating_sub(1)
    } else {
        cycle
    }
}

/// The first cycle whose capture is bad, of a toggle that violates the claim.
fn first_bad(
    design: &Design,
    claim: &Claim,
    run: &Seq<Cycle>,
    toggle: usize,
    rooms: &mut Rooms,
) -> Option<usize>
    requires sound { IsSound design.now }
    requires fits { Fits design.now claim.now }
    requires settled { All (IsSettled design.now) run.now }
    requires toggle { (0 < toggle) × (toggle < length run.now) }
    requires rooms { AreRoomsFor design.now rooms.old }
    ensures { MatchOption result (¬ IsViolatedAt design.now.reset_len design.now claim.now run.now toggle)
        (IsFirstBad design.now claim.now run.now toggle) }
{
    let stale = run.item(toggle - 1).start_bit(design, &claim.start);
    let judged = claim.judged_count().min(run.len() - toggle);
    for r in 0..judged {
        let before = run.item(toggle + r - 1);
        let cycle = run.item(toggle + r);
        if is_bad(design, claim, stale, before, cycle, rooms) {
            return Some(judged_cycle(claim, toggle, r));
        }
    }
    None
}

/// The one run of a stimulus, its first toggle that violates the claim, and the first cycle whose capture is judged of that
/// toggle and bad; `None` where the run violates the claim at no toggle.
///
/// `Shape` where the stimulus's numbers of bits are not the design's, `NotReset` with the first cycle in which a reset or
/// fixed input has another value.
pub fn violation(
    alloc: Global,
    design: &Design,
    claim: &Claim,
    stimulus: &Stimulus,
) -> Result<Option<Violation>, ReplayFault>
    requires sound { IsSound design.now }
    requires fits { Fits design.now claim.now }
    ensures ok { IfOk result (λ found. MatchOption found (NeverViolated design.now claim.now stimulus.now)
        (IsViolation design.now claim.now stimulus.now)) }
    ensures showable { IfOk result (λ found. IfSome found (IsShowable design.now)) }
    ensures err { IfErr result (IsReplayCause design.now stimulus.now) }
{
    let Replay::Violated(toggle) = replay(alloc, design, claim, stimulus)? else {
        return Ok(None);
    };
    let run = linked_run(alloc, design, stimulus)?;
    let mut rooms = Rooms::new(alloc, design)?;
    // the run is violated there, so a judged cycle is bad
    let Some(judged) = first_bad(design, claim, &run, toggle, &mut rooms) else {
        return Ok(None);
    };
    Ok(Some(Violation {
        run,
        toggle,
        judged,
    }))
}
