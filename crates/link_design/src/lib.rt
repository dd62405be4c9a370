//! From a flat netlist by nets (a `Circuit`) to a sound design: which driver a net has, in which order gates are settled,
//! what the clock tree is, and the numbers of the design's nets. It knows no source, no library and no names.
//!
//! Read `designs.rt` first; `specs/Made.antt` says what its answer is, and `specs/Faults.antt` why a circuit gives no design.
//! `tree_rows.rt` and `check_once` of `rows.rt` answer two of its questions alone, for a circuit whose cells are still to be cut out.
#![tactic(auto)]

mod branches;
mod designs;
mod faults;
mod kept;
mod lists;
mod marks;
mod numbers;
mod ordered;
mod orders;
mod readers;
mod rows;
mod tree_rows;
mod trees;
mod walks;

pub use designs::{CircuitDesign, Held, design_of};
pub use faults::CircuitFault;
pub use lists::{all_drivers, all_reads};
pub use orders::gate_order;
pub use rows::{check_once, driver_row};
pub use tree_rows::{ClockRows, clock_rows};
