//! What a run that violates a claim is.
use net_model::Cycle;
use sdcv_base::Seq;

/// A run that violates a claim: the cycle of the toggle, and the first cycle whose capture is judged of it and bad. That is a
/// cycle from the toggle on, or for a claim of the early side the one before. Cycles count from 0.
#[derive(Drop)]
pub struct Violation {
    pub run: Seq<Cycle>,
    pub toggle: usize,
    pub judged: usize,
}
