//! What a replay answers.

/// What a run does to a claim: its first toggle that violates the claim is in that cycle, counted from 0, or it has none.
#[derive(Clone, Copy, Debug, PartialEq, Eq)]
pub enum Replay {
    Violated(usize),
    Holds,
}
