//! Laws of designs with clock gates. Each is the contract of a call that does nothing, for callers that cite it.
ghost use Rattle.std.specs.Prelude.{List};
ghost use Rattle.net_model.specs.Cycles.{IsRun};
ghost use Rattle.net_model.specs.Stimuli.{IsLawful};
ghost use Rattle.net_model.specs.declared.cycles.Cycle.{Cycle};
ghost use Rattle.icg_rewrite.specs.Faults.{HasRoom};
ghost use Rattle.icg_rewrite.specs.Gated.{AreGated};
ghost use Rattle.icg_rewrite.specs.Rewritten.{rewritten};
ghost use Rattle.icg_rewrite.specs.Runs.{IsGatedRun, ShowSame, HasOneGatedRun};

use crate::clock_gates::Gated;
use net_model::Stimulus;

/// A design with clock gates, by its own meaning of a gated clock edge, and its rewritten design have the same runs: each
/// run of the one is shown by a run of the other, in every cycle and with the same bits of registers, inputs and nets.
pub fn same_runs(gated: &Gated)
    requires { AreGated gated.now }
    ensures forth { (run : List Cycle) → IsGatedRun gated.now run → (other : List Cycle) × IsRun (rewritten gated.now) other
        × ShowSame gated.now.design run other }
    ensures back { (other : List Cycle) → IsRun (rewritten gated.now) other → (run : List Cycle) × IsGatedRun gated.now run
        × ShowSame gated.now.design run other }
{}

/// Any first register bits, with lawful input bits for each cycle, have exactly one run of the design with its clock gates,
/// and in the rewritten design they have the same register bits in every cycle, and the same bits on the design's nets.
///
/// So neither law holds for want of runs.
pub fn one_gated_run(gated: &Gated, stimulus: &Stimulus)
    requires are { AreGated gated.now }
    requires room { HasRoom gated.now }
    requires lawful { IsLawful gated.now.design stimulus.now }
    ensures { HasOneGatedRun gated.now stimulus.now }
{}
