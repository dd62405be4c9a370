//! The literals that are set while a step is checked.
ghost use Rattle.std.specs.Prelude.{◌≡◌, ◌||◌, ◌==◌, ◌^◌, ◌<◌, ℕ, [], IfOk, OnOk, map};
ghost use Rattle.proof_log.specs.Literals.{negated};
ghost use Rattle.proof_log.specs.Clauses.{is_set};

use proof_log::{Assignment, Lit, LitSet};
use std::alloc::{AllocError, Global};
use std::collections::BTreeSet;
use std::marker::Model;

/// Literals that are set, in no order that counts.
///
/// Those over the formula's variables are in an assignment, which takes no memory after it is made.
/// The others, which no step of the solver has, are in an ordered set: literals of greater
/// variables, and complements of set literals.
#[derive(Drop)]
pub struct StepSet {
    assigned: Assignment,
    others: BTreeSet<u32>,
}

impl Model for StepSet {
    ghost use Rattle.std.specs.Prelude.{List, ℕ, ◌++◌};

    ghost Value = { List ℕ };

    ghost view = { λ s. s.assigned.lits ++ s.others.keys };
}

impl StepSet {
    /// No literal set.
    pub fn new(alloc: Global, vars: u32) -> Result<StepSet, AllocError>
        requires { vars < 2 ^ 31 }
        ensures { IfOk result (λ s. s ≡ []) }
    {
        Ok(StepSet {
            assigned: Assignment::new(alloc, vars)?,
            others: BTreeSet::new(alloc),
        })
    }

    /// Sets the complements of the clause's literals, and no other literal.
    pub fn negate(&mut self, clause: &[Lit]) -> Result<(), AllocError>
        ensures { OnOk result ((l : ℕ) → is_set self.new l ≡ is_set (map negated clause.now) l) }
    {
        self.clear();
        for l in clause {
            self.set(l.negated())?;
        }
        Ok(())
    }

    /// Sets one more literal.
    pub fn set(&mut self, l: Lit) -> Result<(), AllocError>
        ensures { OnOk result ((q : ℕ) → is_set self.new q ≡ (is_set self.old q || l == q)) }
    {
        if self.is_set(l) {
            return Ok(());
        }
        if l.var() <= self.assigned.vars() && !self.assigned.is_set(l.negated()) {
            self.assigned.set(l);
        } else {
            self.others.insert(l.index() as u32)?;
        }
        Ok(())
    }

    fn clear(&mut self)
        ensures { self.new ≡ [] }
    {
        self.assigned.truncate(0);
        self.others.clear();
    }
}

impl LitSet for StepSet {
    ghost lits = { λ s. s };

    fn is_set(&self, l: Lit) -> bool {
        self.assigned.is_set(l) || self.others.contains(&(l.index() as u32))
    }
}
