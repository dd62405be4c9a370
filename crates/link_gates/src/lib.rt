//! Laws of flat netlists with clock gates. What these mean `link_defs` says: `specs/Above.antt` which clock gate stands above
//! each net of the clock tree, `GateOrders` the order of the clock gates, `GatedDesigns` the design with its clock gates, and
//! what its registers capture.
//!
//! `gated_solutions_are` is the law that links the two meanings of a gated edge: that of the flat netlist, where the clock
//! comes through to a register or not, and that of the rewritten design, in which its clock gate is an enable.
//! `gated_is_one` says that the order and the design with its clock gates follow from the netlist.
#![tactic(auto)]

mod laws;

pub use laws::{gated_is_one, gated_solutions_are};
