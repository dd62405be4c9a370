//! The values of a run that is shown.
ghost use Rattle.std.specs.Prelude.{◌≡◌, IfOk, All};
ghost use Rattle.net_model.specs.Netlist.{IsSound};
ghost use Rattle.net_model.specs.Fits.{Fits};
ghost use Rattle.net_model.specs.Cycles.{IsSettled};
ghost use Rattle.net_model.specs.Stimuli.{IsLawful};
ghost use Rattle.run_views.specs.Violations.{IsShowable};
ghost use Rattle.shown_runs.specs.Shown as spec;
ghost use Rattle.shown_runs.specs.Shown.{IsShown, AreEndStates};

use crate::dont_cares::dont_cares;
use crate::lates::{Late, late_of};
use crate::watches::{Watched, watched_bits};
use linked_types::Linked;
use named_runs::{input_signals, reg_signals};
use net_model::{Claim, Cycle, Design, End, Stimulus};
use run_views::Violation;
use sdcv_base::Seq;
use std::alloc::{AllocError, Global};
use wave_signals::Signal;

/// What is shown of a run: how many cycles it has, the side of its claim, the cycle of the toggle and the judged one; the inputs, the start, the end
/// where that is a register, and the end's captures, each with its bits by cycles; for each cycle which inputs are don't-cares, or nothing where none
/// is; the registers; and what is late.
#[derive(Drop)]
pub struct ShownRun {
    pub cycles: usize,
    pub early: bool,
    pub toggle: usize,
    pub judged: usize,
    pub inputs: Seq<Signal>,
    pub dont_cares: Seq<Seq<bool>>,
    pub start: Seq<bool>,
    pub end: Option<Seq<bool>>,
    pub captured: Seq<bool>,
    pub regs: Seq<Signal>,
    pub late: Late,
}

/// The state of an end in each cycle, where it is a register.
fn end_states(
    alloc: Global,
    design: &Design,
    run: &[Cycle],
    end: &End,
) -> Result<Option<Seq<bool>>, AllocError>
    requires sound { IsSound design.now }
    requires settled { All (IsSettled design.now) run.now }
    ensures { IfOk result (AreEndStates design.now run.now end.now) }
{
    match end {
        End::Reg(reg) => Ok(Some(watched_bits(alloc, design, run, Watched::State(*reg))?)),
        End::Output(_) => Ok(None),
    }
}

/// The cycle whose bit of the start the judged one is tried with.
fn cycle_across(early: bool, toggle: usize) -> usize
    ensures { result ≡ spec.cycle_across early toggle }
{
    if early {
        toggle
    } else {
        toggle.saturating_sub(1)
    }
}

/// What is late in the judged cycle of a run that violates a claim.
fn late_shown(
    alloc: Global,
    linked: &Linked,
    claim: &Claim,
    violation: &Violation,
) -> Result<Late, AllocError>
    requires sound { IsSound linked.now.design }
    requires fits { Fits linked.now.design claim.now }
    requires showable { IsShowable linked.now.design violation.now }
    ensures { IfOk result (spec.IsLateShown linked.now claim.now violation.now) }
{
    let across = violation
        .run
        .item(cycle_across(claim.early, violation.toggle));
    let judged = violation.run.item(violation.judged);
    late_of(alloc, linked, claim, across, judged)
}

/// What is shown of the run of a stimulus that violates a claim.
pub(crate) fn shown_run(
    alloc: Global,
    linked: &Linked,
    claim: &Claim,
    stimulus: &Stimulus,
    violation: &Violation,
) -> Result<ShownRun, AllocError>
    requires sound { IsSound linked.now.design }
    requires fits { Fits linked.now.design claim.now }
    requires lawful { IsLawful linked.now.design stimulus.now }
    requires showable { IsShowable linked.now.design violation.now }
    ensures { IfOk result (IsShown linked.now claim.now stimulus.now violation.now) }
{
    let design = &linked.design;
    let run = violation.run.as_slice();
    let inputs = input_signals(alloc, linked, run)?;
    let regs = reg_signals(alloc, linked, run)?;
    Ok(ShownRun {
        cycles: run.len(),
        early: claim.early,
        toggle: violation.toggle,
        judged: violation.judged,
        inputs: Seq::from_vec(inputs),
        dont_cares: dont_cares(alloc, linked, claim, stimulus, violation.toggle)?,
        start: watched_bits(alloc, design, run, Watched::Start(claim.start))?,
        end: end_states(alloc, design, run, &claim.end)?,
        captured: watched_bits(alloc, design, run, Watched::Capture(claim.end))?,
        regs: Seq::from_vec(regs),
        late: late_shown(alloc, linked, claim, violation)?,
    })
}
