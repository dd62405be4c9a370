//! Verilog texts as synthesis writes them, and layer by layer their rules: words, declarations, scopes and wide netlists,
//! against what is read by hand.
//!
//! This crate has tests alone.
#![tactic(auto)]

#[cfg(test)]
mod netlists;
#[cfg(test)]
mod scopes;
#[cfg(test)]
mod syntax;
#[cfg(test)]
mod words;
