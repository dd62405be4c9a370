//! SDC texts as tools write them, and layer by layer their rules: patterns, words, pieces, values and what scripts set, and the text of
//! multicycle pairs, against what is worked out by hand.
//!
//! This crate has tests alone.
#![tactic(auto)]

#[cfg(test)]
mod expects;
#[cfg(test)]
mod multicycles;
#[cfg(test)]
mod patterns;
#[cfg(test)]
mod pieces;
#[cfg(test)]
mod settings;
#[cfg(test)]
mod values;
#[cfg(test)]
mod words;
