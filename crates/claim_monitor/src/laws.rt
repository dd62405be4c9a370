//! Laws of the bits in front of a monitor, and of graphs with latches that watch a claim. Each is the contract of a call that does
//! nothing, for callers that cite it.
ghost use Rattle.std.specs.Prelude.{◌≡◌, ◌↔◌, ◌+◌, ◌<◌, ◌≤◌, ℕ, true, false, Bool, List, length, Some, slice_get};
ghost use Rattle.net_model.specs.Netlist.{IsSound};
ghost use Rattle.net_model.specs.Fits.{Fits};
ghost use Rattle.net_model.specs.Cycles.{IsRun};
ghost use Rattle.net_model.specs.Held.{free_below};
ghost use Rattle.net_model.specs.Judge.{Holds};
ghost use Rattle.net_model.specs.declared.cycles.Cycle.{Cycle};
ghost use Rattle.claim_monitor.specs.Fronts.{IsFront, sizes_of};
ghost use Rattle.claim_monitor.specs.Tells.{IsCaughtNow, IsFirstFront, IsNextFront};
ghost use Rattle.and_graphs.specs.Runs.{bad_at};
ghost use Rattle.and_graphs.specs.declared.graphs.AndGraph.{AndGraph as Graph};
ghost use Rattle.and_graphs.specs.declared.aigs.Aig.{Aig as Latched};
ghost use Rattle.claim_monitor.specs.Watches.{AreOfRun, IsCaughtAt, Watches};
ghost use Rattle.claim_monitor.specs.Rises.{HasRunOf, IsViolatedBy, RisesWithin, NeverRises};
ghost use Rattle.claim_monitor.specs.Monitors.{IsMonitor, IsAigOf};
ghost use Rattle.claim_monitor.specs.declared.cycle_literals.Literals.{Literals};

use and_graphs::Aig;
use net_model::{Claim, Design};

/// Where the bits in front show a cycle of a run and what was before, they and the cycle tell whether the run is caught there.
///
/// So a monitor needs to know of the cycles before no more than those bits.
pub fn front_tells(design: &Design, claim: &Claim)
    requires sound { IsSound design.now }
    requires fits { Fits design.now claim.now }
    requires plain { claim.now.hazard ≡ false }
    ensures { (run : List Cycle) (t : ℕ) (c : Cycle) (x : List Bool) → IsRun design.now run → IsFront design.now claim.now run t c x
        → (IsCaughtNow design.now (sizes_of design.now claim.now) claim.now x c ↔ IsCaughtAt design.now claim.now run t) }
{}

/// In a run's first cycle the bits in front show it where registers have its bits and all other latches are 0.
pub fn front_begins(design: &Design, claim: &Claim)
    ensures { (run : List Cycle) (c : Cycle) (x : List Bool) → slice_get run 0 ≡ Some c
        → IsFirstFront design.now (sizes_of design.now claim.now) c x → IsFront design.now claim.now run 0 c x }
{}

/// In each next cycle they show it where latches took what they take.
pub fn front_goes_on(design: &Design, claim: &Claim)
    ensures { (run : List Cycle) (t : ℕ) (c next : Cycle) (x y : List Bool) → IsRun design.now run → IsFront design.now claim.now run t c x
        → slice_get run (t + 1) ≡ Some next → IsNextFront design.now claim.now (sizes_of design.now claim.now) x c next y
        → IsFront design.now claim.now run (t + 1) next y }
{}

/// A graph with latches that is made of the literals of a monitor watches the claim: its bad literal is 1 in exactly the steps in
/// which a run is caught, where its inputs and the first bits of its register latches are those of the run.
pub fn monitor_watches(design: &Design, claim: &Claim)
    requires sound { IsSound design.now }
    requires fits { Fits design.now claim.now }
    requires plain { claim.now.hazard ≡ false }
    ensures { (g : Graph) (ls : Literals) (nexts : List ℕ) (bad : ℕ) (a : Latched) → IsMonitor g design.now claim.now ls nexts bad
        → IsAigOf g design.now claim.now nexts bad a → (run : List Cycle) (any : List Bool) (ins : ℕ → List Bool) (t : ℕ) → IsRun design.now run
        → AreOfRun design.now run any ins → t < length run → (bad_at a any ins t ≡ true) ↔ IsCaughtAt design.now claim.now run t }
{}

/// Any first bits of the registers, with any bits of the free inputs at each step, are those of a run of each length.
///
/// So no bad literal stays 0 for want of runs.
pub fn each_has_a_run(design: &Design)
    requires { IsSound design.now }
    ensures { (any : List Bool) (ins : ℕ → List Bool) (cycles : ℕ) → length any ≡ length design.now.regs
        → ((t : ℕ) → length (ins t) ≡ free_below design.now (length design.now.inputs)) → 1 ≤ cycles → HasRunOf design.now any ins cycles }
{}

/// The bad literal of a graph that watches a claim rises beside a run exactly where the run violates the claim, and so it never
/// rises exactly where the claim holds.
///
/// So whoever shows of the graph alone that its bad literal is never 1 has shown the claim.
pub fn rises_exactly_on_violating_runs(design: &Design, claim: &Claim, aig: &Aig)
    requires sound { IsSound design.now }
    requires watches { Watches design.now claim.now aig.now }
    ensures violates { (run : List Cycle) (any : List Bool) (ins : ℕ → List Bool) → IsRun design.now run → AreOfRun design.now run any ins
        → (RisesWithin aig.now any ins (length run) ↔ IsViolatedBy design.now claim.now run) }
    ensures holds { NeverRises aig.now ↔ Holds design.now claim.now }
{}
