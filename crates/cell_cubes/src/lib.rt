//! The rows and the cubes of a Boolean function: what its clauses are made of.
//!
//! Read `rows` first, then `cubes`. Which clauses a row or a cube gives is said in query_model's `specs/Tables`.
#![tactic(auto)]

mod tables;

pub use tables::{cubes, rows};
