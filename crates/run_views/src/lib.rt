//! The run of a stimulus that violates a claim.
//!
//! A stimulus stands for one run of a design. `violation` gives that run, its first toggle that violates the claim, and the
//! first cycle whose capture is judged of it and bad, in the words of `net_model` and `witness_replay`.
#![tactic(auto)]

mod outcomes;
mod violations;

pub use outcomes::Violation;
pub use violations::violation;
