//! Laws of the model. Each is the contract of a call that does nothing, for callers that cite it.
ghost use Rattle.std.specs.Prelude.{◌≡◌, ◌≤◌, ℕ, Bool, List};
ghost use Rattle.net_model.specs.Netlist.{IsSound};
ghost use Rattle.net_model.specs.Fits.{Fits};
ghost use Rattle.net_model.specs.Cycles.{IsRun};
ghost use Rattle.net_model.specs.Stimuli.{IsLawful, HasOneRun, HasStimulus};
ghost use Rattle.net_model.specs.Judge.{judged_count, Toggles, IsViolatedAt, Holds};
ghost use Rattle.net_model.specs.Held.{IsHeldStart};
ghost use Rattle.net_model.specs.Flipped.{IsLateByFlip};
ghost use Rattle.net_model.specs.Moved.{IsMovedByPaths};
ghost use Rattle.net_model.specs.declared.cycles.Cycle.{Cycle as CycleRecord};
ghost use Rattle.sdcv_base.specs.declared.kinds.Edge.{Edge};

use crate::claims::Claim;
use crate::cycles::Stimulus;
use crate::netlist::Design;

/// Any first register bits, with lawful input bits for each cycle, have exactly one run from reset.
///
/// So no claim holds for want of runs.
pub fn one_run(design: &Design, stimulus: &Stimulus)
    requires sound { IsSound design.now }
    requires lawful { IsLawful design.now stimulus.now }
    ensures { HasOneRun design.now stimulus.now }
{}

/// There is a stimulus of each length, of at least one cycle, with the run that it stands for.
///
/// So no claim holds for want of stimuli.
pub fn some_stimulus(design: &Design)
    requires { IsSound design.now }
    ensures { (cycles : ℕ) → 1 ≤ cycles → HasStimulus design.now cycles }
{}

/// A start that is a fixed or a reset input never toggles after the reset's end, so a claim with such a start holds.
pub fn held_start(design: &Design, claim: &Claim)
    requires { IsHeldStart design.now claim.now.start }
    ensures never { (edge : Edge) (run : List CycleRecord) (t : ℕ) (stale : Bool) → IsRun design.now run
        → ¬ Toggles design.now.reset_len edge claim.now.start run t stale }
    ensures holds { Holds design.now claim.now }
{}

/// A claim that judges no capture, as of a multicycle path with multiplier 1, is violated nowhere: not in stretches
/// either. So it holds, whatever the design.
pub fn unjudged(design: &Design, claim: &Claim)
    requires { judged_count claim.now ≡ 0 }
    ensures never { (live : ℕ) (run : List CycleRecord) (t : ℕ) → ¬ IsViolatedAt live design.now claim.now run t }
    ensures holds { Holds design.now claim.now }
{}

/// The end reads a moved net in the last layer exactly where there is a path from the start to it that meets the through
/// sets. So without such a path no late value comes to the end.
pub fn moved_where_path(design: &Design, claim: &Claim)
    requires sound { IsSound design.now }
    requires fits { Fits design.now claim.now }
    ensures { IsMovedByPaths design.now claim.now }
{}

/// The late capture differs exactly where the start's bit is no longer the stale one, and the capture with the start flipped
/// differs. So one late capture of a cycle tells of each toggle before it.
pub fn late_by_flip(design: &Design, claim: &Claim)
    requires sound { IsSound design.now }
    requires fits { Fits design.now claim.now }
    ensures { IsLateByFlip design.now claim.now }
{}
