//! Variables that wait for a decision, in an indexed heap by score (Eén and Sörensson, An
//! Extensible SAT-solver, SAT 2003).
//!
//! Read `heaps.rt`. Contracts say which variables wait. That the one of the highest score is taken
//! first is no clause, since it changes no answer of a search; a test shows it.
#![tactic(auto)]

mod heaps;

pub use heaps::Heap;
