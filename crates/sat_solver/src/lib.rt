//! Clause learning: whether a formula has a model, with a model, a refuting derivation, or a log of
//! the steps that a spent budget gave (Marques-Silva and Sakallah, GRASP, 1999).
//!
//! Read `solving.rt` first, then `engines.rt`, whose calls are the search's steps. A derivation is
//! checked by itself elsewhere, and nothing here is asked to be trusted for that.
#![tactic(auto)]

mod activities;
mod counts;
mod cuts;
mod engines;
mod learning;
mod marks;
mod minimising;
mod propagation;
mod restarts;
mod solving;
mod trails;

pub use counts::Counts;
pub use engines::Engine;
pub use learning::Learnt;
pub use solving::{Answer, Solved, solve, solve_counted};
