//! The constraints of multicycle pairs as SDC text (SDC 2.1, `set_multicycle_path`), a line for each pair of cells, and maybe one for
//! its hold check.
//!
//! Read `specs/Lines.antt` first, the lines of a pair, and `specs/Names.antt`, which names stand in a line as they are. `laws.rt`
//! says that the reader of SDC takes the lines for the commands that are meant. Which pairs get a line is left to the crates
//! above.
#![tactic(auto)]

mod laws;
mod lines;
mod names;

pub use laws::lines_read_back;
pub use lines::{push_hold_line, push_line};
pub use names::writable;
