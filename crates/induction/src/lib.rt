//! The greatest inductive subset of given clauses over register bits.
//!
//! `greatest_set` asks the base queries of each clause, in order (`bases.rt`), and then the step queries of those that are
//! left, each against all of them, until none has an answer (`steps.rt`, `searches.rt`). A run or a stretch that fails one
//! clause leaves out every clause that it fails. Which clauses are tried is left to the crate above.
#![tactic(auto)]

mod bases;
mod members;
mod pools;
mod searches;
mod steps;

pub use members::holds_in;
pub use searches::greatest_set;
