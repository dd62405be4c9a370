//! Checks a derivation by its hints: Ok exactly where it refutes the formula, and then the formula
//! has no model. Nothing is known of how the derivation was found.
//!
//! Read `checks.rt` first. A derivation may come from a stranger: its clauses may name variables
//! above the formula's, and no memory is taken by the size of a literal.
#![tactic(auto)]

mod checks;
mod faults;
mod known;
mod step_sets;

pub use checks::check;
pub use faults::CheckFault;
