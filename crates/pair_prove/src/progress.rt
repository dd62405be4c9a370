//! A sign of life while claims are judged.

/// Who is told how many claims are judged. No contract speaks of it: what is found out does not depend on it.
pub trait Progress {
    /// So many claims of all have their verdict; none where the search for kept clauses begins.
    fn judged(&mut self, done: usize, all: usize);
}

/// Nobody is told.
#[derive(Clone, Copy)]
pub struct Silent;

impl Progress for Silent {
    fn judged(&mut self, _done: usize, _all: usize) {}
}
