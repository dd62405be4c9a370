//! How much a script may select.

/// The most pairs of all exceptions of a script.
pub const MOST_PAIRS: usize = 100_000;

/// The most claims of a script that need a verdict.
pub const MOST_JUDGED: usize = 10_000;
