//! Literals that are set, with a quick answer for each literal.
ghost use Rattle.std.specs.Prelude.{◌≡◌, ◌+◌, ◌-◌, ◌*◌, ◌^◌, ◌<◌, ◌≤◌, [], ◌∷◌, ◌++◌, take, length, true, false, IfOk, map, nat_eq, ℕ};
ghost use Rattle.std.specs.List.{IsDistinct};
ghost use Rattle.proof_log.specs.Literals.{lit_var, negated, InVars};
ghost use Rattle.proof_log.specs.Clauses.{is_set};
ghost use Rattle.proof_log.specs.Assignments.{Assigned};

use crate::effects::LitSet;
use crate::literals::Lit;
use std::alloc::{AllocError, Global};
use std::marker::Model;

/// Literals over the variables 1 to `vars`, in the order in which they were set.
///
/// What always holds (`IsAssignment`):
/// - few, long: there are fewer than 2^31 variables, and a mark for each literal's number.
/// - marked: the marks are at exactly the set literals.
/// - in_vars, distinct: the set literals are of variables from 1 to `vars`, no two of one variable.
/// - roomy: the trail has room for a literal of each variable, so that setting takes no memory.
///
/// Why a literal is set is not known here.
#[derive(Drop)]
pub struct Assignment {
    vars: u32,
    marks: Vec<bool>,
    trail: Vec<Lit>,
}

impl Model for Assignment {
    ghost use Rattle.std.specs.Prelude.{vec_capacity};
    ghost use Rattle.proof_log.specs.Assignments.{Assigned, IsAssignment};

    ghost Value = { Assigned };

    ghost view = { λ a. record { vars = a.vars; lits = a.trail.items } };

    ghost invariant = { λ a. IsAssignment a.vars a.marks.items a.trail.items (vec_capacity a.trail) };
}

impl Assignment {
    /// No literal set, with room for a literal of each variable.
    pub fn new(alloc: Global, vars: u32) -> Result<Assignment, AllocError>
        requires { vars < 2 ^ 31 }
        ensures { IfOk result (λ a. a ≡ record { vars = vars; lits = [] }) }
    {
        let marks = vec![in alloc; false; 2 * vars as usize + 2]?;
        let trail = Vec::with_capacity(alloc, vars as usize + 1)?;
        Ok(Assignment { vars, marks, trail })
    }

    pub fn vars(&self) -> u32
        ensures value { result ≡ self.now.vars }
        ensures few { self.now.vars < 2 ^ 31 }
    {
        self.vars
    }

    /// How many literals are set.
    pub fn len(&self) -> usize
        ensures value { result ≡ length self.now.lits }
        ensures few { length self.now.lits ≤ self.now.vars + 1 }
    {
        self.trail.len()
    }

    pub fn is_empty(&self) -> bool
        ensures { result ≡ nat_eq (length self.now.lits) 0 }
    {
        self.trail.is_empty()
    }

    /// The set literals, in the order in which they were set.
    pub fn lits(&self) -> &[Lit]
        ensures value { result.now ≡ self.now.lits }
        ensures distinct { IsDistinct nat_eq (map lit_var self.now.lits) }
        ensures in_vars { (l : ℕ) → is_set self.now.lits l ≡ true → InVars self.now.vars l }
    {
        &self.trail
    }

    /// Sets a literal that is unset. It takes no memory.
    pub fn set(&mut self, l: Lit)
        requires in_vars { InVars self.old.vars l }
        requires not_true { is_set self.old.lits l ≡ false }
        requires not_false { is_set self.old.lits (negated l) ≡ false }
        ensures set { self.new ≡ record self.old { lits = self.old.lits ++ l ∷ [] } }
        ensures few { length self.new.lits ≤ self.new.vars + 1 }
    {
        self.marks[l.index()] = true;
        self.trail.push_reserved(l);
    }

    /// Unsets the literals from the place `len` on.
    pub fn truncate(&mut self, len: usize)
        ensures { self.new ≡ record self.old { lits = take len self.old.lits } }
    {
        while self.len() > len {
            self.unset_last();
        }
    }

    fn unset_last(&mut self)
        requires { 0 < length self.old.lits }
        ensures vars { self.new.vars ≡ self.old.vars }
        ensures lits { self.new.lits ≡ take (length self.old.lits - 1) self.old.lits }
    {
        let last = self.trail.len() - 1;
        let l = self.trail[last];
        self.marks[l.index()] = false;
        self.trail.truncate(last);
    }
}

impl LitSet for Assignment {
    ghost lits = { λ a. a.lits };

    fn is_set(&self, l: Lit) -> bool {
        l.index() < self.marks.len() && self.marks[l.index()]
    }
}
