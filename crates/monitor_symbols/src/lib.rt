//! The symbol table of a monitor's text (AIGER 1.9): a name for each latch, so that what a model checker finds over latches can be
//! read over registers again.
//!
//! Read `specs/Latches.antt` first: which latch has which name. `symbols_text` (`symbols.rt`) writes a line for each of them. A
//! register goes by the full name of its cell; the latches of the monitor itself by words that begin with `sdcv.`. What is made of
//! the names is left to who reads them.
#![tactic(auto)]

mod latches;
mod symbols;

pub use latches::latch_names;
pub use symbols::symbols_text;
