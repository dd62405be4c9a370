//! The replay of a stimulus.
ghost use Rattle.std.specs.Prelude.{◌≡◌, ◌≤◌, [], ◌∷◌, IfOk};
ghost use Rattle.std.specs.Option.{option_map};
ghost use Rattle.net_model.specs.Netlist.{IsSound};
ghost use Rattle.net_model.specs.Fits.{Fits};
ghost use Rattle.cert_defs.specs.Listed.{item_numbered};
ghost use Rattle.design_stages.specs.Designs.{CanBeJudged};
ghost use Rattle.design_stages.specs.Stages.{Finds, Staged};
ghost use Rattle.answer_lines.specs.Stimuli.{stimulus_line, replay_line};
ghost use Rattle.sdcv_top.specs.Jobs.{Replayed, RunAgain, ReadsStimulus, Replays, replayed};
ghost use Rattle.sdcv_top.specs.Reads.{whole_of};
ghost use Rattle.sdcv_top.specs.Plans.{StopCounts, Plans, IsPlanned, outcome_of};

use crate::plans::{Plan, Stop};
use crate::readers::text;
use answer_lines::{no_pair_line, replay_line, replayed_line, stimulus_line};
use design_stages::{Designed, Refusal};
use fault_lines::Origin;
use net_model::{Claim, Design, Stimulus};
use run_ends::Ending;
use sdcv_base::Host;
use std::alloc::{AllocError, Global};
use witness_replay::{Replay, read_stim, replay};

/// Reads the stimulus of a pair from a report, and runs it.
pub fn replayed<'a, H: Host>(
    alloc: Global,
    host: &mut H,
    designed: &Designed,
    report: &str,
    number: u64,
) -> Result<Plan<'a>, Stop>
    requires judged { CanBeJudged designed.now }
    requires some { 1 ≤ number }
    ensures planned { Plans (Replayed number designed.now) (whole_of report.now ∷ []) (H.files host.old) (H.asked host.old) (H.asked host.new) result }
    ensures count { StopCounts (H.faults host.old) (H.faults host.new) result }
    ensures files { H.files host.new ≡ H.files host.old }
    ensures printed { H.printed host.new ≡ H.printed host.old }
    ensures saved { H.saved host.new ≡ H.saved host.old }
{
    let claims = designed.selected.claims.as_slice();
    let Some(claim) = numbered(claims, number) else {
        return Err(Stop::Refused(no_pair_line(alloc, number)?));
    };
    let bytes = text(alloc, host, report, usize::MAX, Origin::Stimulus)?;
    let plan = run_again(alloc, &designed.linked.design, claim, &bytes, number)?;
    Ok(plan)
}

// Runs the stimulus of that number in a report.
fn run_again<'a>(
    alloc: Global,
    design: &Design,
    claim: &Claim,
    report: &[u8],
    number: u64,
) -> Result<Plan<'a>, Refusal>
    requires sound { IsSound design.now }
    requires fits { Fits design.now claim.now }
    ensures { IsPlanned (RunAgain number design.now claim.now report.now) result }
{
    let stimulus = stimulus(alloc, report, number)?;
    let answer = answer(alloc, design, claim, &stimulus)?;
    let plan = plan(alloc, number, answer)?;
    Ok(plan)
}

/// The claim of that number, from 1.
pub fn numbered(claims: &[Claim], number: u64) -> Option<&Claim>
    ensures { option_map (λ claim. claim.now) result ≡ item_numbered claims.now number }
{
    let place = number.checked_sub(1)?;
    claims.get(place as usize)
}

// The stimulus of that number in a report.
fn stimulus(alloc: Global, report: &[u8], number: u64) -> Result<Stimulus, Refusal>
    ensures { Finds (Staged (ReadsStimulus number report.now) stimulus_line) result }
{
    match read_stim(alloc, report, number) {
        Ok(stimulus) => Ok(stimulus),
        Err(fault) => Err(Refusal::Line(stimulus_line(alloc, &fault)?)),
    }
}

// What the run of a stimulus does to a claim.
fn answer(
    alloc: Global,
    design: &Design,
    claim: &Claim,
    stimulus: &Stimulus,
) -> Result<Replay, Refusal>
    requires sound { IsSound design.now }
    requires fits { Fits design.now claim.now }
    ensures { Finds (Staged (Replays design.now claim.now stimulus.now) replay_line) result }
{
    match replay(alloc, design, claim, stimulus) {
        Ok(answer) => Ok(answer),
        Err(fault) => Err(Refusal::Line(replay_line(alloc, &fault)?)),
    }
}

// What a replay prints.
fn plan<'a>(alloc: Global, number: u64, answer: Replay) -> Result<Plan<'a>, AllocError>
    ensures { IfOk result (λ plan. outcome_of plan ≡ replayed number answer) }
{
    let line = replayed_line(alloc, number, answer)?;
    let ending = match answer {
        Replay::Violated(_) => Ending::Done,
        Replay::Holds => Ending::Holds,
    };
    Plan::printing_one(alloc, ending, line)
}
