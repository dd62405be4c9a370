//! Clauses of one or two literals, by numbers.
ghost use Rattle.std.specs.Prelude.{◌≡◌, ◌≢◌, IfOk};
ghost use Rattle.inv_candidates.specs.Clauses.{one_of, two_of};
ghost use Rattle.inv_candidates.specs.Listing.{clause_of, is_one};

use net_model::{InvClause, StateLit};
use sdcv_base::Seq;
use std::alloc::{AllocError, Global};

/// A clause of one or two literals: that one of two registers has the value given for it. Where there is one literal, it stands
/// twice.
#[derive(Debug, Clone, Copy, PartialEq, Eq, Hash)]
pub(crate) struct Short {
    pub reg: usize,
    pub value: bool,
    pub other: usize,
    pub other_value: bool,
}

impl Short {
    /// One literal.
    pub fn one(reg: usize, value: bool) -> Short
        ensures { clause_of result ≡ one_of reg value }
    {
        Short {
            reg,
            value,
            other: reg,
            other_value: value,
        }
    }

    /// Two literals, the smaller register first.
    pub fn two(reg: usize, value: bool, other: usize, other_value: bool) -> Short
        requires { reg ≢ other }
        ensures { clause_of result ≡ two_of reg value other other_value }
    {
        if reg < other {
            Short {
                reg,
                value,
                other,
                other_value,
            }
        } else {
            Short {
                reg: other,
                value: other_value,
                other: reg,
                other_value: value,
            }
        }
    }

    /// Whether both literals are one.
    fn is_one(self) -> bool
        ensures { result ≡ is_one self }
    {
        self.reg == self.other && self.value == self.other_value
    }

    /// The clause.
    pub fn clause(self, alloc: Global) -> Result<InvClause, AllocError>
        ensures { IfOk result (λ c. c ≡ clause_of self) }
    {
        let mut lits = Seq::one(
            alloc,
            StateLit {
                reg: self.reg,
                value: self.value,
            },
        )?;
        if !self.is_one() {
            lits.push(StateLit {
                reg: self.other,
                value: self.other_value,
            })?;
        }
        Ok(InvClause { lits })
    }
}
