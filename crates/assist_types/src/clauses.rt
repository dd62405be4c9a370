//! Clauses by name.
use sdcv_base::{Seq, Setting};

/// That one of some registers at least has the value given for it, as the words of a line say it in their order; no name stands
/// twice. Lines count from 1.
pub struct AssistClause {
    pub line: u64,
    pub lits: Seq<Setting>,
}

// Let go by a call of its own: whoever owns one proves nothing of how its parts are kept.
impl Drop for AssistClause {
    fn drop(self) {
        let AssistClause {
            line: _,
            lits: _lits,
        } = self;
    }
}

/// The clauses of a text, in its order.
pub struct Assist {
    pub clauses: Seq<AssistClause>,
}

impl Drop for Assist {
    fn drop(self) {
        let Assist { clauses: _clauses } = self;
    }
}
