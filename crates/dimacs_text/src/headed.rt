//! A formula and the number of its header.
use proof_log::Formula;

/// The formula of a text, and the number of variables that its header tells, which may be above the greatest one in a clause. The
/// formula's own number is that greatest one, so the variables above it cost nothing.
#[derive(Drop)]
pub struct Headed {
    pub vars: u32,
    pub formula: Formula,
}
