//! The bits of a run by their full names, and the order of a stimulus's bits.
//!
//! Read `specs/NamedBits.antt` first: all full names of nets, and all registers, with their bits in a run. `run_signals` shows each of
//! them once. A register goes by its instance. Which run it is, and what it shows, is left to the crate above.
#![tactic(auto)]

mod bits;
mod listings;
mod places;
mod runs;

pub use listings::bits_text;
pub use runs::{input_signals, reg_signals, run_signals};
