//! What one item of a module adds to a flat netlist: its own nets, what it reads and drives, the leaf that it is, and the
//! instance that stands in it; or the exact cause for which the item is refused.
//!
//! Read `items.rt` first. `specs/Items.antt` says what is added, in the words of `link_defs`, and `specs/Faults.antt` why an
//! item is refused. Which items there are is left to the crate above.
#![tactic(auto)]

mod cell_checks;
mod cells;
mod conn_tables;
mod conns;
mod items;
mod joins;
mod made;
mod module_checks;
mod names;
mod netlists;
mod nets;
mod prims;
mod ties;

pub use items::add_item;
pub use made::{Instance, LeafPlace, Made};
pub use names::{full_name, pin_name};
pub use netlists::{Netlist, Referent};
