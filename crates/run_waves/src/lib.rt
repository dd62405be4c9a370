//! The wave of a refutation's run.
//!
//! Read `specs/RunWaves.antt` first: which signals it has, and its text. `wave` writes exactly it. How a run is found, and where
//! the text is saved, is left to the crates above.
#![tactic(auto)]

mod waves;

pub use waves::wave;
