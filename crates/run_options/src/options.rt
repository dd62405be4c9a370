//! The options of a run, as its report says them.

/// How far a run looks, and what its claims allow.
#[derive(Clone, Copy, PartialEq, Eq)]
pub struct RunOptions {
    pub hazard: bool,
    pub reset_len: usize,
    pub depth: usize,
    pub budget: u64,
    pub inv_depth: usize,
    /// At how many captures more than the first a false path is judged, 0 to 8.
    pub lag: u8,
    /// Whether the hold side of false paths is judged too.
    pub hold: bool,
    /// How many clauses a text gives to be tried, where one is read.
    pub assist: Option<u64>,
    /// How many nets are free behind what is cut, where cells may be cut.
    pub free: Option<u64>,
    /// How many case analyses inside the design are assumed, where any may be.
    pub assumed: Option<u64>,
    /// Whether the script is judged as for a sign-off.
    pub strict: bool,
}
