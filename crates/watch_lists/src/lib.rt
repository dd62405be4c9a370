//! Watch lists: for each literal the watches that are on it, linked so that a watch moves from list
//! to list without memory (Moskewicz et al., Chaff, DAC 2001).
//!
//! Read `watches.rt` first: a watch is on one literal, and stands in that literal's list or among
//! those that wait to be looked at. What a watch means for its clause is left to the crate above.
#![tactic(auto)]

mod lists;
mod watches;

pub use watches::Watches;
