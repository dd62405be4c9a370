//! The top call: command words and a host in, a status and verdicts out. It alone knows the order of the stages.
//!
//! Read `run` first, which is `run_told` without a sign of life, and then `plan` in stages.rt: its stages follow one another, and each ends with its own value or refuses
//! the run. What a run owes is the relation `IsDueFor` of specs/Due, one definition a stage, and what its report is worth
//! `IsReported` of specs/Headline; what it did is `HasRun` of specs/Runs.
#![tactic(auto)]

mod assisting;
mod checking;
mod deliveries;
mod demos;
mod finding;
mod laws;
mod mendables;
mod mended;
mod mending;
mod plans;
mod rans;
mod readers;
mod reads;
mod replaying;
mod stages;
mod top;
mod verifying;
mod watching;

pub use judgements::{Judged, Progress, Silent};
pub use laws::{check_repeats, tells_as_judged};
pub use mcp_detect::Detected;
pub use rans::Ran;
pub use run_ends::Status;
pub use top::{run, run_told};
