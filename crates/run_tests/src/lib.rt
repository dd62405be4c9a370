//! What a row of `rows` can't say of the program's call: texts as large as tools write them.
//!
//! This crate has tests alone.
#![tactic(auto)]

#[cfg(test)]
mod large;
