//! The two questions of an induction.

/// Whether a query asks for a run from reset, or for a stretch from any register bits.
#[derive(Debug, Clone, Copy, PartialEq, Eq)]
pub enum Phase {
    Base,
    Step,
}
