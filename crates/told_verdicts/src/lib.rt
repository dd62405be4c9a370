//! The verdicts that are told of a design in which inputs are free: a refutation stands as told only where it is firm.
//!
//! Read `specs/Tolds.antt` first. The judged verdicts are those of the crates below, and a certificate speaks of these; `told` says
//! which of them are told as they are, and `IsRightTold` what each told verdict promises.
#![tactic(auto)]

mod tolds;

pub use firm_runs::FreeBits;
pub use tolds::told;
