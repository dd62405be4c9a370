//! How far a proof is sought.

/// How far a proof is sought.
#[derive(Clone, Copy)]
pub struct Proving {
    pub depth: usize,
    pub budget: u64,
    pub inv_depth: usize,
}
