//! How much a search did.

/// The conflicts of a search, and the literals that it set by unit clauses. They are figures to be
/// shown, on which no answer rests. A figure that has come to 2^64 - 1 stays.
#[derive(Clone, Copy, Debug, PartialEq, Eq)]
pub struct Counts {
    pub conflicts: u64,
    pub propagations: u64,
}

impl Counts {
    pub fn new() -> Counts {
        Counts {
            conflicts: 0,
            propagations: 0,
        }
    }

    /// Counts a propagation that set so many literals, and whether a clause was false then.
    pub fn add(&mut self, set: usize, conflict: bool) {
        self.propagations = self.propagations.saturating_add(set as u64);
        if conflict {
            self.conflicts = self.conflicts.saturating_add(1);
        }
    }
}
