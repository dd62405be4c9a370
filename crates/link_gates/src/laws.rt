//! Laws of clock gates. They are the contracts of calls that do nothing, for callers that cite them.
ghost use Rattle.std.specs.Prelude.{◌≡◌, ℕ, ◌≤◌, ◌==◌, Bool, false, List, Contains, Some, count_by};
ghost use Rattle.net_model.specs.declared.netlist.Gate.{Gate as GateRecord};
ghost use Rattle.icg_rewrite.specs.declared.clock_gates.Gated.{Gated as GatedRecord};
ghost use Rattle.icg_rewrite.specs.Gated.{AreGated};
ghost use Rattle.icg_rewrite.specs.Rewritten.{rewritten};
ghost use Rattle.link_defs.specs.declared.circuits.Part.{Part};
ghost use Rattle.link_defs.specs.Circuits.{all_drivers, clock_of, OnTree};
ghost use Rattle.link_defs.specs.GateOrders.{ClockPart, IsGateOrderOf};
ghost use Rattle.link_defs.specs.GatedDesigns.{IsGatedOf, AreGatedSolutions};

use icg_rewrite::Gated;
use link_defs::Circuit;

/// The settled cycles of the rewritten design are exactly the solutions of the netlist's equations, and its registers
/// capture what the netlist's flops do at a clock edge that may not come through to them.
pub fn gated_solutions_are(circuit: &Circuit, gated: &Gated)
    requires once { (net : ℕ) → count_by (λ m. m == net) (all_drivers circuit.now) ≤ 1 }
    requires gated { AreGated gated.now }
    ensures { (tree : List Bool) (order : List GateRecord) (gates : List ClockPart) → IsGatedOf circuit.now tree order gates gated.now
        → AreGatedSolutions circuit.now tree order (rewritten gated.now) }
{}

/// A netlist whose registers and clock gates are on the clock has one order of its clock gates, and one design with them over one
/// design without.
pub fn gated_is_one(circuit: &Circuit)
    requires clocked { (p : Part) (clock : ℕ) → Contains circuit.now.parts p → clock_of p ≡ Some clock → OnTree circuit.now clock false }
    ensures order { (one other : List ClockPart) → IsGateOrderOf circuit.now one → IsGateOrderOf circuit.now other → one ≡ other }
    ensures design { (tree other_tree : List Bool) (order : List GateRecord) (gates other_gates : List ClockPart) (one other : GatedRecord)
        → IsGatedOf circuit.now tree order gates one → IsGatedOf circuit.now other_tree order other_gates other → one.design ≡ other.design
        → one ≡ other }
{}
