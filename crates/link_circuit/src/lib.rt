//! The flat netlist of a source below its top module, the names of its nets, and its circuit; or the exact cause for which a
//! module, an item or the circuit is refused, by full names.
//!
//! - `flats.rt`: instances of modules, parts and leaves, depth first (`specs/Flats.antt`, in the words of `link_defs`, also why a
//!   source is refused). Before that `orders.rt` puts the modules into an order in which each comes after those that it has
//!   instances of, or names one that contains itself. What one item adds is `link_items`'.
//! - `scopes.rt`: the names of the flat netlist in a table, fed instance by instance: each full name once, and no name for two
//!   nets (`specs/Scopes.antt`). The names of cells are left to the crate above.
//! - `circuits.rt`: the nets and parts of the circuit, and the nets of the top module's ports, the clock's apart. `laws.rt` says
//!   that a design can be made of it where no item is refused: its parts are over nets of the flat netlist, with at most six
//!   pins each, as `link_design` asks.
//! - `named_faults.rt`: a refusal of a circuit with names, also of one with further inputs and outputs. `fault_laws.rt` says that what
//!   it speaks of is one of an instance and has a full name: a net of a pin that is open or tied to a constant is driven once, and
//!   read only where the constant drives it, so no refusal names it.
#![tactic(auto)]

mod circuits;
mod fault_laws;
mod faults;
mod finds;
mod flats;
mod frames;
mod laws;
mod named_faults;
mod orders;
mod ports;
mod scopes;
mod steps;
mod tables;

pub use circuits::{FlatCircuit, circuit_of};
pub use fault_laws::faults_are_named;
pub use faults::NameFault;
pub use flats::{Flattened, flatten};
pub use laws::circuit_is_lawful;
pub use named_faults::{named_fault, net_name};
pub use orders::module_order;
pub use ports::{PortNets, port_nets};
pub use tables::NetTable;
