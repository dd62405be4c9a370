//! Two-valued simulation: the settled net values of a cycle, its captures, what its end captures where a start comes
//! late, and the linked cycles that a stimulus stands for.
//!
//! The meaning of each call is a definition of `net_model`: `IsSettled`, `capture`, `IsNext`, `IsLateCapture` and
//! `IsLinked`. Read `settle` first; `settle64` does for sixty-four cycles what it does for one. Which inputs a run has,
//! and which captures are judged, are left to the crates above.
#![tactic(auto)]

mod captures;
mod lane_settling;
mod late_captures;
mod runs;
mod settings;
mod settling;

pub use captures::{capture, step};
pub use lane_settling::settle64;
pub use late_captures::{Layers, layer_capture};
pub use runs::linked_run;
pub use settings::{are_set, put_settings};
pub use settling::settle;
