//! And-inverter graphs with latches, and their text in the AIGER format, version 1.9 (Biere, Heljanko, Wieringa, FMV report
//! 11/2, 2011).
//!
//! Read `graphs.rt` first: a graph grows line by line, and what a literal means stays. `lowering.rt` adds a function of the
//! model to it. A finished graph with its latches is an `Aig` (`aigs.rt`); `specs/Runs.antt` says what it does step by step, and
//! `texts.rt` writes it. What is watched with it is left to the crate above.
#![tactic(auto)]

mod aigs;
mod graphs;
mod lowering;
mod texts;

pub use aigs::{Aig, Latch};
pub use graphs::{AndGraph, AndLine, bit_literal, complement};
pub use texts::aiger_text;
