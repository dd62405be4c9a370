//! How a run ends: the statuses of the program with their numbers, and the status of a run by how it was due to end and by
//! what the host answered last.
//!
//! Read `status_after` first. What is due is said by the stages of sdcv_top, which know the commands.
#![tactic(auto)]

mod statuses;

pub use statuses::{Ending, Status, status_after};
