//! What a saved certificate and a printed report are worth in a later run over the same texts.
//!
//! Read `specs/Laws.antt`: what a check answers to the certificate that a verification saved, and a replay of a refuted pair to the
//! report that refutes it. The laws stand apart from the program's call, which does not need them.
#![tactic(auto)]

mod laws;

pub use laws::{check_repeats, report_replays};
