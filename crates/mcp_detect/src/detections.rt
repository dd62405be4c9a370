//! What is found out about the pairs of a design.
use sdcv_base::{Name, Seq};
use verdicts::{InvSet, Verdict};

/// A pair that was tried, by the names of its start and its end: all its claims up to the multiplier `k` are justified, and
/// where `k` is below the bound, `next` is the verdict on the next multiplier. With `k` 1 nothing is found of the pair.
#[derive(Drop)]
pub struct Tried {
    pub start: Name,
    pub end: Name,
    pub k: u8,
    pub next: Option<Verdict>,
}

/// The kept clauses, and the pairs that were tried, by start and then by end.
#[derive(Drop)]
pub struct Detected {
    pub inv: InvSet,
    pub tried: Seq<Tried>,
}
