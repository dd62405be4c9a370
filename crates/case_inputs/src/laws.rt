//! Laws of assumed designs. Each is the contract of a call that does nothing, for callers that cite it.
ghost use Rattle.std.specs.Prelude.{◌≡◌, [], List, All, map};
ghost use Rattle.net_model.specs.Netlist.{IsSound};
ghost use Rattle.net_model.specs.Cycles.{IsRun};
ghost use Rattle.net_model.specs.declared.cycles.Cycle.{Cycle};
ghost use Rattle.case_inputs.specs.Assumed.{CanFix, assumed_design};
ghost use Rattle.case_inputs.specs.Runs.{IsKept, AreShadowsKept, with_assumed, IsRunWithout};

use crate::assumptions::Assumed;
use net_model::{Design, Fixed};
use sdcv_base::Seq;

/// Each run of the design that keeps the assumptions is, with the assumed inputs at their values, a run of the assumed design, net
/// by net; and each run of the assumed design whose shadows have the values is, without the assumed inputs, such a run of the design.
///
/// So what holds in all runs of the assumed design holds wherever the assumptions do.
pub fn assumed_runs(design: &Design, fixed: &Seq<Fixed>, assumed: &Seq<Assumed>)
    requires sound { IsSound design.now }
    requires fixed { CanFix design.now fixed.now }
    ensures forth { (run : List Cycle) → IsRun design.now run → All (IsKept design.now fixed.now assumed.now) run
        → IsRun (assumed_design design.now fixed.now assumed.now) (map (with_assumed assumed.now) run) }
    ensures back { (run : List Cycle) → IsRun (assumed_design design.now fixed.now assumed.now) run
        → All (λ (c : Cycle). AreShadowsKept design.now assumed.now c.nets) run → IsRunWithout design.now fixed.now assumed.now run }
{}

/// A design with nothing more fixed and without assumptions is itself.
pub fn nothing_assumed(design: &Design)
    ensures { assumed_design design.now [] [] ≡ design.now }
{}
