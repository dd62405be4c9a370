//! The solver's crates, each call against what is known by hand: clauses, derivations and their faults, watches and
//! variables that wait, formulas with a model and without.
//!
//! This crate has tests alone.
#![tactic(auto)]

#[cfg(test)]
mod clauses;
#[cfg(test)]
mod derivations;
#[cfg(test)]
mod numbers;
#[cfg(test)]
mod solving;
#[cfg(test)]
mod waiting;
