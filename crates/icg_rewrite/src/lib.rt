//! Designs with clock gates, rewritten to designs with enables: a register whose clock may be stopped keeps its bit by a
//! function of its own, as Liberty's integrated clock gating cells mean it.
//!
//! Read `rewrite` first. `specs/Rewritten.antt` says what it makes of a design; `specs/Runs.antt` says what a gated clock
//! edge means. `same_runs` is the law that both have the same runs, of which each stimulus has one (`one_gated_run`). What
//! a clock gate of a netlist is, and on which parts of the clock tree it stands, is left to the crates that link.
#![tactic(auto)]

mod clock_gates;
mod enables;
mod faults;
mod functions;
mod laws;
mod registers;
mod rewriting;
mod rooms;

pub use clock_gates::{ClockGate, Gated};
pub use faults::RewriteFault;
pub use laws::{one_gated_run, same_runs};
pub use rewriting::rewrite;
