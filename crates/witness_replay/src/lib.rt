//! Stimuli as texts, and their exact replay: whether the run that a stimulus stands for violates a claim, and at which
//! toggle first.
//!
//! It simulates, and knows neither clauses nor how a stimulus was found. Read `replay` first: its answer is in the words
//! of `net_model`, `IsViolatedAt` for the one run that the stimulus stands for.
#![tactic(auto)]

mod bads;
mod faults;
mod lines;
mod outcomes;
mod replays;
mod rows;
mod shapes;
mod stimulus_reads;
mod stimulus_texts;

pub use bads::{Rooms, is_bad};
pub use faults::{ReplayFault, StimFault};
pub use outcomes::Replay;
pub use replays::replay;
pub use stimulus_reads::read_stim;
pub use stimulus_texts::write_stim;
