//! The law of names in refusals. It is the contract of a call that does nothing, for callers that cite it.
ghost use Rattle.std.specs.Prelude.{ℕ, Bool, List, Option, Contains};
ghost use Rattle.netlist_types.specs.Lawful.{IsLawful, IsLawfulModule};
ghost use Rattle.cell_types.specs.Libraries.{IsLawful as IsLawfulLibrary};
ghost use Rattle.link_design.specs.declared.faults.CircuitFault.{CircuitFault};
ghost use Rattle.link_defs.specs.declared.circuits.Circuit.{Circuit};
ghost use Rattle.link_design.specs.Faults.{IsCause};
ghost use Rattle.link_defs.specs.declared.cuts.CutItem.{CutItem};
ghost use Rattle.link_defs.specs.Flatten.{flat_of};
ghost use Rattle.link_defs.specs.Judged.{FlatNetlist, IsJudged, netlist_of};
ghost use Rattle.link_circuit.specs.Flats.{AreFine};
ghost use Rattle.link_circuit.specs.Names.{HasName, IsExtended};

use cell_types::Library;
use netlist_types::{Module, Source};

/// What a refusal of the netlist below a module that is judged speaks of has a full name, where no item of the flat netlist is refused;
/// so has what one of its circuit with further inputs and outputs speaks of, which are nets of instances.
pub fn faults_are_named(source: &Source, library: &Library, top: &Module)
    ensures { IsLawful source.now → IsLawfulLibrary library.now.cells → IsLawfulModule source.now top.now → Contains source.now.modules top.now
        → AreFine source.now library.now (flat_of source.now library.now top.now) → (clock : Option (List ℕ)) (items : List CutItem) (one_clock : Bool)
        (j : FlatNetlist) (k : Circuit) (f : CircuitFault)
        → IsJudged one_clock (netlist_of (record { source = source.now; items = items }) library.now top.now clock) j
        → IsExtended (flat_of source.now library.now top.now).scopes j.circuit k → IsCause k f
        → HasName j.found (flat_of source.now library.now top.now) k f }
{}
