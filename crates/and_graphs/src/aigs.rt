//! Graphs with latches.
use crate::graphs::AndLine;
use sdcv_base::Seq;

/// A latch: the literal whose bit it has at the next step, and whether its first bit is any, or else 0.
#[derive(Clone, Copy, Debug, PartialEq, Eq)]
pub struct Latch {
    pub next: u64,
    pub is_any: bool,
}

/// A graph over inputs and latches, with a literal that is to stay 0.
///
/// Variable 0 is the constant 0; then come the inputs, the latches and the lines, each in order.
#[derive(Drop)]
pub struct Aig {
    pub inputs: u64,
    pub latches: Seq<Latch>,
    pub bad: u64,
    pub lines: Seq<AndLine>,
}
