//! The laws of linking. They are the contracts of calls that do nothing, for callers that cite them.
ghost use Rattle.std.specs.Prelude.{Bool, List};
ghost use Rattle.std.specs.List.Sorted.{IsPermutation};
ghost use Rattle.net_model.specs.Netlist.{IsSound};
ghost use Rattle.net_model.specs.declared.netlist.Gate.{Gate as GateRecord};
ghost use Rattle.link_defs.specs.Designs.{IsDesignOf, IsOrderOf, AreSolutions, equations};

use crate::circuits::Circuit;
use net_model::Design;

/// The gates of a design are the equations of the netlist, each as often as it is one.
pub fn equations_are(circuit: &Circuit)
    ensures { (tree : List Bool) (order : List GateRecord) → IsOrderOf circuit.now tree order → IsPermutation (equations tree circuit.now) order }
{}

/// The settled cycles of a sound design of a flat netlist are exactly the solutions of the netlist's equations with the
/// same register and input bits, and what its registers capture is what the netlist's flops do.
pub fn solutions_are(circuit: &Circuit, design: &Design)
    ensures { (tree : List Bool) (order : List GateRecord) → IsDesignOf circuit.now tree order design.now → IsSound design.now
        → AreSolutions circuit.now tree order design.now }
{}
