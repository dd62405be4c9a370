//! The set literals, each with its reason.
ghost use Rattle.std.specs.Prelude.{◌≡◌, ◌+◌, ◌*◌, ◌^◌, ◌<◌, ◌≤◌, [], ◌∷◌, ◌++◌, take, length, true, false, IfOk, map, nat_eq, nat_lt, slice_index, ℕ};
ghost use Rattle.std.specs.List.{IsDistinct};
ghost use Rattle.proof_log.specs.Literals.{lit_var, negated, InVars};
ghost use Rattle.proof_log.specs.Clauses.{is_set};
ghost use Rattle.sat_solver.specs.Trails.{Trailed};

use proof_log::{Assignment, Lit, LitSet};
use std::alloc::{AllocError, Global};
use std::marker::Model;

/// The set literals, oldest first, and beside each the place of the clause that set it.
///
/// What always holds (`IsTrail`):
/// - paired: there are as many reasons as set literals.
/// - roomy: there is room for a reason of each variable, so that setting takes no memory.
/// - long, placed: the table of places has the place of each set literal, by its variable.
///
/// Whether a reason is true of its clause is not known here; the reason of a decision says nothing.
#[derive(Drop)]
pub struct Trail {
    assigned: Assignment,
    reasons: Vec<usize>,
    places: Vec<usize>,
}

impl Model for Trail {
    ghost use Rattle.std.specs.Prelude.{vec_capacity};
    ghost use Rattle.sat_solver.specs.Trails.{Trailed, IsTrail};

    ghost Value = { Trailed };

    ghost view = { λ t. record { vars = t.assigned.vars; lits = t.assigned.lits; reasons = t.reasons.items } };

    ghost invariant = { λ t. IsTrail t.assigned.vars t.assigned.lits t.reasons.items (vec_capacity t.reasons) t.places.items };
}

impl Trail {
    /// No literal set.
    pub fn new(alloc: Global, vars: u32) -> Result<Trail, AllocError>
        requires { vars < 2 ^ 31 }
        ensures { IfOk result (λ t. t ≡ record { vars = vars; lits = []; reasons = [] }) }
    {
        let assigned = Assignment::new(alloc, vars)?;
        let reasons = Vec::with_capacity(alloc, vars as usize + 1)?;
        let places = vec![in alloc; 0usize; vars as usize + 1]?;
        Ok(Trail {
            assigned,
            reasons,
            places,
        })
    }

    pub fn vars(&self) -> u32
        ensures value { result ≡ self.now.vars }
        ensures few { self.now.vars < 2 ^ 31 }
    {
        self.assigned.vars()
    }

    pub fn len(&self) -> usize
        ensures value { result ≡ length self.now.lits }
        ensures few { length self.now.lits ≤ self.now.vars + 1 }
        ensures paired { length self.now.reasons ≡ length self.now.lits }
    {
        let _reasons = &self.reasons;
        self.assigned.len()
    }

    pub fn lits(&self) -> &[Lit]
        ensures value { result.now ≡ self.now.lits }
        ensures distinct { IsDistinct nat_eq (map lit_var self.now.lits) }
        ensures in_vars { (l : ℕ) → is_set self.now.lits l ≡ true → InVars self.now.vars l }
    {
        self.assigned.lits()
    }

    pub fn reasons(&self) -> &[usize]
        ensures value { result.now ≡ self.now.reasons }
        ensures paired { length self.now.reasons ≡ length self.now.lits }
    {
        &self.reasons
    }

    /// The place of a set literal among those that are set.
    pub fn place(&self, l: Lit) -> usize
        requires { is_set self.now.lits l ≡ true }
        ensures below { result < length self.now.lits }
        ensures here { slice_index self.now.lits result ≡ l }
        ensures front { (n : ℕ) → is_set (take n self.now.lits) l ≡ nat_lt result n }
    {
        let _lits = self.assigned.lits();
        self.places[l.var() as usize]
    }

    /// Sets a literal that is unset, with a reason beside it. It takes no memory.
    pub fn set(&mut self, l: Lit, reason: usize)
        requires in_vars { InVars self.old.vars l }
        requires not_true { is_set self.old.lits l ≡ false }
        requires not_false { is_set self.old.lits (negated l) ≡ false }
        ensures vars { self.new.vars ≡ self.old.vars }
        ensures lits { self.new.lits ≡ self.old.lits ++ l ∷ [] }
        ensures reasons { self.new.reasons ≡ self.old.reasons ++ reason ∷ [] }
        ensures few { length self.new.lits ≤ self.new.vars + 1 }
        ensures paired { length self.old.reasons ≡ length self.old.lits }
    {
        self.places[l.var() as usize] = self.assigned.len();
        self.assigned.set(l);
        self.reasons.push_reserved(reason);
    }

    /// Unsets the literals from the place `len` on.
    pub fn truncate(&mut self, len: usize)
        ensures vars { self.new.vars ≡ self.old.vars }
        ensures lits { self.new.lits ≡ take len self.old.lits }
        ensures reasons { self.new.reasons ≡ take len self.old.reasons }
    {
        self.assigned.truncate(len);
        self.reasons.truncate(len);
    }
}

impl LitSet for Trail {
    ghost lits = { λ t. t.lits };

    fn is_set(&self, l: Lit) -> bool {
        self.assigned.is_set(l)
    }
}
