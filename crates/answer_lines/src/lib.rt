//! The lines in which a run answers what it is asked of a certificate or of a stimulus, and those in which it refuses one, and the
//! line of a graph that is saved.
//!
//! Want of memory has no line. When each answer and each cause comes is up to the crates that tell it.
#![tactic(auto)]

mod certs;
mod graphs;
mod stimuli;

pub use certs::{accepted_lines, rejected_line};
pub use graphs::{GraphCounts, aiger_line};
pub use stimuli::{no_pair_line, replay_line, replayed_line, stimulus_line};
