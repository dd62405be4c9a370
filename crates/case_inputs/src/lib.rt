//! Assumed designs: pins and nets inside a design that are taken to have a value, as case analysis says, made to data inputs with
//! that value.
//!
//! Read `assume` first. `specs/Ties.antt` says which net a load pin then reads, `specs/Assumed.antt` what the design is;
//! `assumed_runs` is the law that it has the runs of the design that keep the assumptions. Which pins a name of a script stands
//! for is left to the crates that look up objects.
#![tactic(auto)]

mod assuming;
mod assumptions;
mod faults;
mod inputs;
mod laws;
mod loads;
mod rooms;
mod ties;

pub use assuming::assume;
pub use assumptions::Assumed;
pub use faults::AssumeFault;
pub use laws::{assumed_runs, nothing_assumed};
