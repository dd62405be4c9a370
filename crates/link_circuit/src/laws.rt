//! The law that joins flattening and the making of a design. It is the contract of a call that does nothing, for callers
//! that cite it.
ghost use Rattle.std.specs.Prelude.{ℕ, List, Option};
ghost use Rattle.netlist_types.specs.Lawful.{IsLawful, IsLawfulModule};
ghost use Rattle.cell_types.specs.Libraries.{IsLawful as IsLawfulLibrary};
ghost use Rattle.link_design.specs.Lawful.{IsLawfulCircuit};
ghost use Rattle.link_defs.specs.Circuits.{circuit_of};
ghost use Rattle.link_defs.specs.Flatten.{flat_of};
ghost use Rattle.link_circuit.specs.Flats.{AreFine};

use cell_types::Library;
use netlist_types::{Module, Source};

/// The circuit below a module is one that a design can be made of, where the source and the library are lawful and no item
/// of the flat netlist is refused.
pub fn circuit_is_lawful(source: &Source, library: &Library, top: &Module)
    ensures { IsLawful source.now → IsLawfulLibrary library.now.cells → IsLawfulModule source.now top.now
        → AreFine source.now library.now (flat_of source.now library.now top.now) → (clock : Option (List ℕ))
        → IsLawfulCircuit (circuit_of source.now library.now top.now clock) }
{}
