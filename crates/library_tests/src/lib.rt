//! Liberty texts as vendors write them, and one by one their rules: groups and functions, against what is read by hand; and the
//! built-in cells by name.
//!
//! This crate has tests alone.
#![tactic(auto)]

#[cfg(test)]
mod cells;
#[cfg(test)]
mod expects;
#[cfg(test)]
mod faults;
#[cfg(test)]
mod functions;
#[cfg(test)]
mod groups;
