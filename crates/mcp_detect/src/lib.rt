//! The multicycle pairs of a design: for each pair of registers between which a path leads, the largest multiplier up to which
//! its multicycle claims are justified (Higuchi, DAC 2002).
//!
//! Read `specs/Detections.antt` first: what is promised of each pair that is tried. `specs/Scripts.antt` says which pairs are
//! tried, and `specs/Causes.antt` when they are too many. Then `detecting.rt`: `detect` selects the pairs, keeps clauses over
//! register bits for all of them together, and goes on from multiplier to multiplier for each (`tries.rt`). How a pair is
//! selected, a clause kept and a claim proved is said in the crates below; the text of what is found is left to those above.
#![tactic(auto)]

mod detecting;
mod detections;
mod faults;
mod options;
mod scripts;
mod selecting;
mod tries;

pub use detecting::detect;
pub use detections::{Detected, Tried};
pub use faults::DetectFault;
pub use options::DetectOptions;
pub use pair_prove::{Progress, Silent};
