//! The verdict on a claim, by induction over the offset of a toggle.
//!
//! `prove` asks query after query until one decides. What each verdict says stands in `verdicts/specs/Verdicts`, and what it
//! says without a word of queries in `specs/Proving`. `Progress` is told how many claims of several have their verdict.
#![tactic(auto)]

mod deciding;
mod progress;
mod proving;

pub use progress::{Progress, Silent};
pub use proving::prove;
pub use verdicts::{Cause, InvProof, InvSet, InvSpent, Limits, Proof, Verdict};
