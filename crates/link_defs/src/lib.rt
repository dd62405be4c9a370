//! What linking is: the flat netlist of a source, its equations over nets, the design and the names that stand for
//! them, and the cause of each refusal. The crates that link a source are judged by these words.
//!
//! Read `specs/Flatten.antt` first (the instances of a source and the net of each of their names), then `Parts` (what
//! the items read and drive), `Circuits` (drivers, readers, the clock tree, cycles), `Designs` (the design without its clock
//! gates), `Above`, `GateOrders` and `GatedDesigns` (the clock gates, the design with them, its solutions), `CellNames`, `Cuts` (the
//! cells that are cut out) and `Faults`. `proofs/Worked.antt` has netlists that these definitions link, by computing.
#![tactic(auto)]

mod circuits;
mod cuts;
mod laws;

pub use circuits::{Circuit, Part};
pub use cuts::{CutCell, CutFault, CutItem, CutPin, CutSource, Way};
pub use laws::{equations_are, solutions_are};
