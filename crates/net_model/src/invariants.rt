//! Facts about register bits.
use sdcv_base::Seq;

/// That a register has a value.
#[derive(Debug, Clone, Copy, PartialEq, Eq)]
pub struct StateLit {
    pub reg: usize,
    pub value: bool,
}

/// That one of some registers has the value given for it. The first names the smallest register.
pub struct InvClause {
    pub lits: Seq<StateLit>,
}

// Let go by a call of its own: whoever owns one proves nothing of how its parts are kept.
impl Drop for InvClause {
    fn drop(self) {
        let InvClause { lits: _lits } = self;
    }
}
