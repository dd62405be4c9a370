//! What the solver and the checker of derivations speak of: literals, clauses in normal form,
//! formulas and their models, and derivations by reverse unit propagation with hints.
//!
//! Read `derivations.rt` first: when the steps of a derivation follow, and when they refute a
//! formula. How a clause is found and how a derivation is checked is left to the crates above.
#![tactic(auto)]

mod assignments;
mod clauses;
mod derivations;
mod effects;
mod formulas;
mod literals;
mod models;
mod tables;

pub use assignments::Assignment;
pub use clauses::Clause;
pub use derivations::{DerivStep, Derivation};
pub use effects::{Effect, LitSet};
pub use formulas::Formula;
pub use literals::Lit;
pub use models::Model;
pub use tables::ClauseTable;
