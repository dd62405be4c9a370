//! A query as a formula.
use frame_unroll::Frames;
use proof_log::Formula;

/// The clauses of a query over numbered keys. Resets are active in the cycles below `live`, and there are `cycles` cycles,
/// numbered from 0.
#[derive(Drop)]
pub struct Problem {
    pub frames: Frames,
    pub live: usize,
    pub cycles: usize,
    pub formula: Formula,
}
