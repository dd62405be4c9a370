//! What is left of a circuit where cells are cut out of it: what these drove may be anything, so the nets that they alone drive
//! become data inputs, and what those on the clock read becomes outputs.
//!
//! Read `cuts.rt` first; what the circuit is, `link_defs` says (`specs/Cuts.antt`), and `specs/Cutting.antt` says it by places of pins
//! and by rows over the nets. Before it `cells.rt` gives the cells that are cut out of a flat netlist, and `checks.rt` and `driven.rt`
//! say why they can't be; after it `names.rt` tells what each of their pins is, and `references.rt` how many cells there are of each
//! reference. Which instances are cut out of a source, and what of it may be linked, is left to other crates.
#![tactic(auto)]

mod cells;
mod checks;
mod cuts;
mod driven;
mod firsts;
mod frees;
mod groups;
mod laws;
mod marks;
mod names;
mod namings;
mod places;
mod references;
mod remains;
mod roles;
mod rows;
mod sinks;

pub use cells::cut_cells;
pub use checks::check_cells;
pub use cuts::cut;
pub use driven::driven_pin;
pub use laws::{cuts_are_one, nothing_is_cut};
pub use names::cut_cell_names;
pub use places::{PinPlace, pin_names};
pub use references::cut_names;
pub use remains::Cut;
pub use rows::{CutPins, CutRows};
