//! The stages from texts to the selected pairs of a design: each finds its value, or refuses the run with the line of its fault.
//!
//! Read `designing.rt` first: what is found of texts that were read. What a stage stands for is told in `specs/Stages`; what each
//! one finds, in `specs/Texts` and `specs/Designs`. A netlist that is read wide is linked without what is cut out of it; else
//! nothing is cut out. How the texts come, and what is done with the pairs, is left to the crates above.
#![tactic(auto)]

mod designing;
mod designs;
mod laws;
mod readers;
mod refusals;
mod tellings;

pub use designing::{designed, linked, settled};
pub use designs::{Designed, ReadTexts, Settled};
pub use laws::nothing_is_cut;
pub use readers::{cells, constraints, netlist};
pub use refusals::Refusal;
pub use tellings::{asked_clock, free_count, told_alone};
