//! Clauses, and their normal form.
ghost use Rattle.std.specs.Prelude.{◌≡◌, ◌≤◌, ◌↔◌, ℕ, length, take, drop, IfOk, IfSome, IsNone, IsTrue, All, MatchBool, MatchOption};
ghost use Rattle.std.specs.List.Sorted.{IsNonDecreasing};
ghost use Rattle.proof_log.specs.Literals.{InVars};
ghost use Rattle.proof_log.specs.Clauses.{is_set, IsNormal, HasComplements, IsNormalFrom, IsNormalFront};

use crate::literals::Lit;
use sdcv_base::Seq;
use std::alloc::{AllocError, Global};
use std::marker::Model;

/// Literals, of which one is to be true. Contracts see the list of their numbers.
#[derive(Debug, Drop)]
pub struct Clause {
    pub lits: Seq<Lit>,
}

impl Model for Clause {
    ghost use Rattle.std.specs.Prelude.{List, ℕ};

    ghost Value = { List ℕ };

    ghost view = { λ c. c.lits };
}

impl Clause {
    /// The literals by their variables, each once, or `None` where two are complements.
    pub fn normal(alloc: Global, lits: &[Lit]) -> Result<Option<Clause>, AllocError>
        ensures none { IfOk result (λ o. IsNone o ↔ HasComplements lits.now) }
        ensures normal { IfOk result (λ o. IfSome o (λ c. IsNormal c)) }
        ensures same { IfOk result (λ o. IfSome o (λ c. (l : ℕ) → is_set c l ≡ is_set lits.now l)) }
    {
        let mut out = Vec::from_slice(alloc, lits)?;
        if !normalize(&mut out, 0) {
            return Ok(None);
        }
        Ok(Some(Clause {
            lits: Seq::from_vec(out),
        }))
    }

    /// An equal clause.
    pub fn copy(&self, alloc: Global) -> Result<Clause, AllocError>
        ensures { IfOk result (λ c. c ≡ self.now) }
    {
        Ok(Clause {
            lits: self.lits.copy(alloc)?,
        })
    }

    /// Whether the clause is in normal form, over the variables 1 to `vars`.
    pub fn is_normal(&self, vars: u32) -> bool
        ensures { IsTrue result ↔ (IsNormal self.now × All (InVars vars) self.now) }
    {
        is_ascending(self.lits.as_slice(), vars)
    }

    pub fn as_slice(&self) -> &[Lit]
        ensures { result.now ≡ self.now }
    {
        self.lits.as_slice()
    }
}

/// Puts the literals from a place on into normal form: by their variables, each once. The answer is
/// false where two of them are complements, and then none of them is left.
pub(crate) fn normalize(lits: &mut Vec<Lit>, start: usize) -> bool
    requires { start ≤ length lits.old.items }
    ensures normal { MatchBool result
        (IsNormalFrom start lits.old.items lits.new.items)
        (HasComplements (drop start lits.old.items) × (lits.new.items ≡ take start lits.old.items)) }
    ensures short { length lits.new.items ≤ length lits.old.items }
{
    let Some(count) = put_in_order(&mut lits[start..]) else {
        lits.truncate(start);
        return false;
    };
    lits.truncate(start + count);
    true
}

/// Puts literals into normal form at the front, and tells how many they are, or `None` where two are complements.
fn put_in_order(lits: &mut [Lit]) -> Option<usize>
    ensures { MatchOption result (HasComplements lits.old) (IsNormalFront lits.old lits.new) }
{
    lits.sort_unstable_by_key(|l| l.index());
    each_once(lits)
}

/// Moves literals that stand in order to the front, each once.
fn each_once(lits: &mut [Lit]) -> Option<usize>
    requires { IsNonDecreasing lits.old }
    ensures { MatchOption result (HasComplements lits.old) (IsNormalFront lits.old lits.new) }
{
    if lits.is_empty() {
        return Some(0);
    }
    let mut kept = 1;
    for place in 1..lits.len() {
        let last = lits[kept - 1];
        let l = lits[place];
        if last.var() < l.var() {
            lits[kept] = l;
            kept += 1;
        } else if last != l {
            return None;
        }
    }
    Some(kept)
}

/// Whether the variables ascend, from 1 to `vars`.
pub(crate) fn is_ascending(lits: &[Lit], vars: u32) -> bool
    ensures { IsTrue result ↔ (IsNormal lits.now × All (InVars vars) lits.now) }
{
    let mut before = 0;
    for l in lits {
        let var = l.var();
        if var <= before || var > vars {
            return false;
        }
        before = var;
    }
    true
}
