//! The top module of a source, the bits of its ports by name, and names that may not stand twice.
//!
//! Read `tops.rt` first: `one_top` finds the only module that none instantiates, and `top_inputs` names the bits of its input
//! ports. `specs/Tops.antt` says why a source has no top module. `clashes.rt` refuses names of port bits, and of cells, that
//! stand twice, as `specs/Clashes.antt` says; the names of nets are in a table of their own (`link_circuit`).
#![tactic(auto)]

mod clashes;
mod ports;
mod tops;

pub use clashes::{add_ports, check_cells, check_names};
pub use ports::{input_names, output_names};
pub use tops::{one_top, top_inputs};
