//! Runs of a design whose free bits are drawn, sixty-four at once, and the clauses over register bits that hold in them.
//!
//! Which runs are meant is said in `specs/Drawn.antt`, over the words that the crates `rand_pcg` and `rand_core` state. Read
//! `surviving.rt` first: of given clauses it leaves those that hold in every live cycle of all of these runs. `thinned` leaves out
//! further ones that no induction keeps: they fail after drawn stretches that meet all clauses (`thinning.rt`). `step64` makes the
//! register bits of sixty-four next cycles at once (`lane_steps.rt`).
#![tactic(auto)]

mod draws;
mod inputs;
mod lane_steps;
mod pulls;
mod sifts;
mod sims;
mod stretches;
mod surviving;
mod thinning;

pub use lane_steps::step64;
pub use surviving::survivors;
pub use thinning::thinned;
