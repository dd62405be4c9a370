//! What an SDC script selects in a design, as values: the exceptions as they are listed, the pairs of a start and an end, each
//! with its claim, the warnings of objects, what is told of other commands, and why nothing is selected.
//!
//! The types alone: what a script selects is left to the crates that select, and how it is printed to the reports.
//! `Selected` is the type to read first.
#![tactic(auto)]

mod faults;
mod notices;
mod selections;
mod warnings;

pub use faults::ExpandFault;
pub use notices::{CutCells, Notices, Skipped, Unjudged};
pub use selections::{CommandLine, Listing, PairLine, Selected};
pub use warnings::Warning;
