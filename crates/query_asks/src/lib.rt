//! Queries of an induction, asked of the solver: the formula of a query, what the solver finds of it, and the run that a
//! model stands for.
//!
//! `ask_claim` asks whether a claim is violated at a depth, and `ask_clause` whether a clause over register bits fails. Which
//! depth is asked next is left to the crates above.
#![tactic(auto)]

mod asks;
mod found;
mod prepared_designs;

pub use asks::{Asked, Probe, ask_claim, ask_clause};
pub use found::Found;
pub use prepared_designs::Prepared;
