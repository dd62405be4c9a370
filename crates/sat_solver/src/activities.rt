//! Which variable is decided next, and with which value.
ghost use Rattle.std.specs.Prelude.{◌≡◌, ◌≤◌, ◌<◌, ◌^◌, ◌||◌, ◌==◌, ◌⊎◌, ◌++◌, ◌∷◌, [], ℕ, take, true, false, IfOk, MatchOption, MatchBool};
ghost use Rattle.proof_log.specs.Literals.{lit_var, negated, InVars};
ghost use Rattle.proof_log.specs.Clauses.{is_set};
ghost use Rattle.decision_heap.specs.Heaps.{IsSame};
ghost use Rattle.sat_solver.specs.Searches.{AllInVars, AllSet, IsUnset};
ghost use Rattle.sat_solver.specs.Engines.{AreWaiting};

use crate::trails::Trail;
use decision_heap::Heap;
use proof_log::{ClauseTable, Lit, LitSet};
use std::alloc::{AllocError, Global};

/// The variables that wait for a decision, and the value that each variable last had.
///
/// Each conflict raises the variables of the clauses that led to it, later conflicts by more
/// (Moskewicz et al., Chaff, DAC 2001). The phase is the value that the variable last had
/// (Pipatsrisawat and Darwiche, SAT 2007). No answer rests on scores or phases; what is promised is
/// that each unset variable waits.
#[derive(Drop)]
pub struct Activities {
    pub waiting: Heap,
    pub phases: Vec<bool>,
}

impl Activities {
    /// Every variable waits with the score 0, and every phase is negative.
    pub fn new(alloc: Global, vars: u32) -> Result<Activities, AllocError>
        requires { vars < 2 ^ 31 }
        ensures { IfOk result (λ a. AreWaiting vars [] a.waiting) }
    {
        let waiting = Heap::new(alloc, vars)?;
        let phases = vec![in alloc; false; vars as usize + 1]?;
        Ok(Activities { waiting, phases })
    }

    /// Takes out an unset variable of the highest score, as the literal of its phase, or is `None`
    /// where every variable is set.
    pub fn next_unset(&mut self, trail: &Trail) -> Option<Lit>
        requires { AreWaiting trail.now.vars trail.now.lits self.old.waiting }
        ensures { MatchOption result
            (AllSet trail.now.vars trail.now.lits × AreWaiting trail.now.vars trail.now.lits self.new.waiting)
            (λ l. IsUnset trail.now.vars trail.now.lits l × AreWaiting trail.now.vars (trail.now.lits ++ l ∷ []) self.new.waiting) }
    {
        let _vars = trail.vars();
        while let Some(var) = self.waiting.pop() {
            let l = self.literal(var);
            if is_unset(trail, l) {
                return Some(l);
            }
        }
        None
    }

    /// The literal of the variable's phase.
    fn literal(&self, var: u32) -> Lit
        requires from { 1 ≤ var }
        requires to { var < 2 ^ 31 }
        ensures { lit_var result ≡ var }
    {
        Lit::new(var, self.phases.get(var as usize).copied().unwrap_or(false))
    }

    /// Lets the variables of the literals from that place on wait again, and keeps their values.
    pub fn release(&mut self, trail: &Trail, from: usize)
        requires { AreWaiting trail.now.vars trail.now.lits self.old.waiting }
        ensures { AreWaiting trail.now.vars (take from trail.now.lits) self.new.waiting }
    {
        let _lits = trail.lits();
        for place in from..trail.len() {
            self.release_one(trail.lits()[place]);
        }
    }

    fn release_one(&mut self, l: Lit)
        requires { InVars self.old.waiting.vars l }
        ensures vars { self.new.waiting.vars ≡ self.old.waiting.vars }
        ensures inside { (v : ℕ) → is_set self.new.waiting.inside v ≡ (is_set self.old.waiting.inside v || lit_var l == v) }
    {
        if let Some(phase) = self.phases.get_mut(l.var() as usize) {
            *phase = l.positive();
        }
        self.waiting.insert(l.var());
    }

    /// Raises the variables of the clauses that the hints of a step name.
    pub fn raise_hints(&mut self, clauses: &ClauseTable, hints: &[u64])
        requires { AllInVars self.old.waiting.vars clauses.now }
        ensures { IsSame self.old.waiting self.new.waiting }
    {
        for hint in hints {
            let place = (*hint).saturating_sub(1) as usize;
            if place < clauses.len() {
                self.raise_all(clauses.clause(place));
            }
        }
        self.waiting.age();
    }

    fn raise_all(&mut self, lits: &[Lit])
        requires { (l : ℕ) → is_set lits.now l ≡ true → InVars self.old.waiting.vars l }
        ensures { IsSame self.old.waiting self.new.waiting }
    {
        for l in lits {
            self.waiting.raise(l.var());
        }
    }
}

fn is_unset(trail: &Trail, l: Lit) -> bool
    ensures { MatchBool result
        ((is_set trail.now.lits l ≡ false) × (is_set trail.now.lits (negated l) ≡ false))
        ((is_set trail.now.lits l ≡ true) ⊎ (is_set trail.now.lits (negated l) ≡ true)) }
{
    if trail.is_set(l) {
        return false;
    }
    !trail.is_set(l.negated())
}
