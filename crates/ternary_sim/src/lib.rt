//! Three-valued simulation of a cycle whose start is unknown: what its end captures, where hazards count
//! (Eichelberger, Hazard detection in combinational and sequential switching circuits, 1965).
//!
//! The meaning of `capture3` is a definition of `net_model`, `IsTernaryCapture`. Read `capture3` first, and then
//! `plain_violation_is_hazard`: what the ternary capture says of the late captures of two-valued simulation.
#![tactic(auto)]

mod cells;
mod laws;
mod ternary_captures;

pub use laws::plain_violation_is_hazard;
pub use ternary_captures::{Layers3, capture3};
