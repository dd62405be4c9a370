//! Cuts of a conflict: literals that are false together, by which the conflict comes about.
ghost use Rattle.std.specs.Prelude.{
  ◌≡◌,
  ◌+◌,
  ◌<◌,
  ◌≤◌,
  ◌^◌,
  ◌⊎◌,
  [],
  ◌∷◌,
  ◌++◌,
  true,
  false,
  length,
  IfOk,
  not,
  ◌&&◌,
  ◌||◌,
  ◌==◌,
  MatchBool,
  slice_index,
  take,
  ℕ,
};
ghost use Rattle.proof_log.specs.Literals.{lit_var, negated};
ghost use Rattle.proof_log.specs.Clauses.{is_set};
ghost use Rattle.sat_solver.specs.Searches.{IsUnitAt, IsFalseAt};
ghost use Rattle.sat_solver.specs.Trails.{Justified};
ghost use Rattle.sat_solver.specs.Watches.{clause_at};
ghost use Rattle.sat_solver.specs.Cuts.{CutState, IsUnitCut, ResolvedBelow};
ghost use Rattle.sat_solver.specs.Markings.{is_marked, marked_lits, Gathered, AreMarked, AreReplaced};

use crate::marks::Marks;
use crate::trails::Trail;
use proof_log::{ClauseTable, Lit, LitSet};
use std::alloc::{AllocError, Global};

/// A cut, whose literals are those that set literals of marked variables make false.
#[derive(Drop)]
pub struct Cut {
    /// The place where level 1 begins.
    pub base: usize,
    /// The place where the present level begins.
    pub start: usize,
    /// How many literals the present level makes false.
    pub above: usize,
    /// How many literals level 0 makes false.
    pub below: usize,
    /// The literals that the levels between make false.
    pub lits: Vec<Lit>,
    /// The numbers of the clauses by which the cut leads to a conflict, the last one first.
    pub hints: Vec<u64>,
}

impl Cut {
    /// No literal.
    pub fn new(alloc: Global, base: usize, start: usize) -> Cut
        ensures base { result.base ≡ base }
        ensures start { result.start ≡ start }
        ensures above { result.above ≡ 0 }
        ensures below { result.below ≡ 0 }
        ensures lits { result.lits.items ≡ [] }
        ensures hints { result.hints.items ≡ [] }
    {
        Cut {
            base,
            start,
            above: 0,
            below: 0,
            lits: Vec::new(alloc),
            hints: Vec::new(alloc),
        }
    }

    /// Makes an empty cut that of the false clause at that place.
    pub fn mark_conflict(
        &mut self,
        marks: &mut Marks,
        clauses: &ClauseTable,
        trail: &Trail,
        conflict: usize,
    ) -> Result<(), AllocError>
        requires fits { trail.now.vars < length marks.old.stamps }
        requires low { self.old.base ≤ self.old.start }
        requires above { self.old.above ≡ 0 }
        requires below { self.old.below ≡ 0 }
        requires lits { self.old.lits.items ≡ [] }
        requires hints { self.old.hints.items ≡ [] }
        requires conflict { IsFalseAt clauses.now trail.now.lits conflict }
        ensures long { length marks.new.stamps ≡ length marks.old.stamps }
        ensures base { self.new.base ≡ self.old.base }
        ensures start { self.new.start ≡ self.old.start }
        ensures gathered { IfOk result (λ _. Gathered trail.now.lits self.new marks.new) }
        ensures state { IfOk result (λ _. CutState clauses.now trail.now.lits [] [] (marked_lits marks.new trail.now.lits) self.new.hints.items) }
    {
        let _count = clauses.len();
        marks.clear();
        self.hints.push(conflict as u64 + 1)?;
        self.mark_false(marks, trail, clauses.clause(conflict))?;
        Ok(())
    }

    /// Resolves from the last set literal back, until all literals but one are false by the levels
    /// below the present one. The answer is the place of the literal that makes that one false: the
    /// first unique implication point.
    pub fn resolve_to_unit(
        &mut self,
        marks: &mut Marks,
        clauses: &ClauseTable,
        trail: &Trail,
    ) -> Result<usize, AllocError>
        requires fits { trail.now.vars < length marks.old.stamps }
        requires within { self.old.start < length trail.now.lits }
        requires gathered { Gathered trail.now.lits self.old marks.old }
        requires justified { Justified clauses.now (self.old.start + 1) trail.now.lits trail.now.reasons }
        requires cut { CutState clauses.now trail.now.lits [] [] (marked_lits marks.old trail.now.lits) self.old.hints.items }
        ensures long { length marks.new.stamps ≡ length marks.old.stamps }
        ensures base { self.new.base ≡ self.old.base }
        ensures start { self.new.start ≡ self.old.start }
        ensures gathered { IfOk result (λ _. Gathered trail.now.lits self.new marks.new) }
        ensures cut { IfOk result (λ at. IsUnitCut clauses.now trail.now.lits self.old.start at
            (marked_lits marks.new trail.now.lits) self.new.hints.items) }
    {
        let _lits = trail.lits();
        let mut at = trail.len() - 1;
        while at > self.start {
            if marks.is_marked(trail.lits()[at].var()) {
                if self.above == 1 {
                    return Ok(at);
                }
                self.resolve(marks, clauses, trail, at)?;
            }
            at -= 1;
        }
        Ok(at)
    }

    /// Resolves away each literal that level 0 makes false.
    pub fn resolve_below(
        &mut self,
        marks: &mut Marks,
        clauses: &ClauseTable,
        trail: &Trail,
    ) -> Result<(), AllocError>
        requires fits { trail.now.vars < length marks.old.stamps }
        requires within { self.old.base ≤ length trail.now.lits }
        requires gathered { Gathered trail.now.lits self.old marks.old }
        requires justified { (i : ℕ) → i < self.old.base
            → IsUnitAt clauses.now (take i trail.now.lits) (slice_index trail.now.reasons i) (slice_index trail.now.lits i) }
        ensures long { length marks.new.stamps ≡ length marks.old.stamps }
        ensures base { self.new.base ≡ self.old.base }
        ensures start { self.new.start ≡ self.old.start }
        ensures gathered { IfOk result (λ _. Gathered trail.now.lits self.new marks.new) }
        ensures cut { IfOk result (λ _. ResolvedBelow clauses.now trail.now.lits self.old.base
            (marked_lits marks.old trail.now.lits) self.old.hints.items (marked_lits marks.new trail.now.lits) self.new.hints.items) }
    {
        let _lits = trail.lits();
        let mut at = self.base;
        while at > 0 && self.below > 0 {
            at -= 1;
            if marks.is_marked(trail.lits()[at].var()) {
                self.resolve(marks, clauses, trail, at)?;
            }
        }
        Ok(())
    }

    /// Replaces the literal that the one at that place makes false by the rest of that one's reason.
    fn resolve(
        &mut self,
        marks: &mut Marks,
        clauses: &ClauseTable,
        trail: &Trail,
        at: usize,
    ) -> Result<(), AllocError>
        requires fits { trail.now.vars < length marks.old.stamps }
        requires within { at < length trail.now.lits }
        requires apart { (self.old.start ≤ at) ⊎ (at < self.old.base) }
        requires marked { is_marked marks.old (lit_var (slice_index trail.now.lits at)) ≡ true }
        requires reason { slice_index trail.now.reasons at < length clauses.now }
        requires gathered { Gathered trail.now.lits self.old marks.old }
        ensures long { length marks.new.stamps ≡ length marks.old.stamps }
        ensures base { self.new.base ≡ self.old.base }
        ensures start { self.new.start ≡ self.old.start }
        ensures gathered { IfOk result (λ _. Gathered trail.now.lits self.new marks.new) }
        ensures hints { IfOk result (λ _. self.new.hints.items ≡ self.old.hints.items ++ (slice_index trail.now.reasons at + 1) ∷ []) }
        ensures replaced { IfOk result (λ _. AreReplaced trail.now.lits (slice_index trail.now.lits at)
            (clause_at clauses.now (slice_index trail.now.reasons at)) marks.old marks.new) }
    {
        let _count = clauses.len();
        self.unmark(marks, trail, at);
        let reason = trail.reasons()[at];
        self.hints.push(reason as u64 + 1)?;
        self.mark_false(marks, trail, clauses.clause(reason))?;
        Ok(())
    }

    /// Takes the mark off the variable of the literal at that place, above or below.
    fn unmark(&mut self, marks: &mut Marks, trail: &Trail, at: usize)
        requires fits { trail.now.vars < length marks.old.stamps }
        requires within { at < length trail.now.lits }
        requires apart { (self.old.start ≤ at) ⊎ (at < self.old.base) }
        requires marked { is_marked marks.old (lit_var (slice_index trail.now.lits at)) ≡ true }
        requires gathered { Gathered trail.now.lits self.old marks.old }
        ensures long { length marks.new.stamps ≡ length marks.old.stamps }
        ensures base { self.new.base ≡ self.old.base }
        ensures start { self.new.start ≡ self.old.start }
        ensures hints { self.new.hints ≡ self.old.hints }
        ensures gathered { Gathered trail.now.lits self.new marks.new }
        ensures unmarked { (v : ℕ) → is_marked marks.new v
            ≡ (is_marked marks.old v && not (lit_var (slice_index trail.now.lits at) == v)) }
    {
        let _lits = trail.lits();
        marks.unmark(trail.lits()[at].var());
        if at >= self.start {
            self.above -= 1;
        } else {
            self.below -= 1;
        }
    }

    /// Marks the variables of those of the literals that are false.
    fn mark_false(
        &mut self,
        marks: &mut Marks,
        trail: &Trail,
        lits: &[Lit],
    ) -> Result<(), AllocError>
        requires fits { trail.now.vars < length marks.old.stamps }
        requires gathered { Gathered trail.now.lits self.old marks.old }
        ensures long { length marks.new.stamps ≡ length marks.old.stamps }
        ensures base { self.new.base ≡ self.old.base }
        ensures start { self.new.start ≡ self.old.start }
        ensures hints { self.new.hints ≡ self.old.hints }
        ensures gathered { IfOk result (λ _. Gathered trail.now.lits self.new marks.new) }
        ensures marked { IfOk result (λ _. AreMarked trail.now.lits lits.now marks.old marks.new) }
    {
        for l in lits {
            self.mark_if_false(marks, trail, *l)?;
        }
        Ok(())
    }

    fn mark_if_false(&mut self, marks: &mut Marks, trail: &Trail, l: Lit) -> Result<(), AllocError>
        requires fits { trail.now.vars < length marks.old.stamps }
        requires gathered { Gathered trail.now.lits self.old marks.old }
        ensures long { length marks.new.stamps ≡ length marks.old.stamps }
        ensures base { self.new.base ≡ self.old.base }
        ensures start { self.new.start ≡ self.old.start }
        ensures hints { self.new.hints ≡ self.old.hints }
        ensures gathered { IfOk result (λ _. Gathered trail.now.lits self.new marks.new) }
        ensures marked { IfOk result (λ _. (q : ℕ) → is_set trail.now.lits (negated q) ≡ true
            → is_marked marks.new (lit_var q) ≡ (is_marked marks.old (lit_var q) || l == q)) }
    {
        let _lits = trail.lits();
        if !trail.is_set(l.negated()) {
            return Ok(());
        }
        if marks.is_marked(l.var()) {
            return Ok(());
        }
        self.mark_one(marks, trail, l)?;
        Ok(())
    }

    fn mark_one(&mut self, marks: &mut Marks, trail: &Trail, l: Lit) -> Result<(), AllocError>
        requires fits { trail.now.vars < length marks.old.stamps }
        requires falsified { is_set trail.now.lits (negated l) ≡ true }
        requires unmarked { is_marked marks.old (lit_var l) ≡ false }
        requires gathered { Gathered trail.now.lits self.old marks.old }
        ensures long { length marks.new.stamps ≡ length marks.old.stamps }
        ensures base { self.new.base ≡ self.old.base }
        ensures start { self.new.start ≡ self.old.start }
        ensures hints { self.new.hints ≡ self.old.hints }
        ensures gathered { IfOk result (λ _. Gathered trail.now.lits self.new marks.new) }
        ensures marked { (v : ℕ) → is_marked marks.new v ≡ (is_marked marks.old v || lit_var l == v) }
    {
        let _lits = trail.lits();
        let _vars = trail.vars();
        let _len = trail.len();
        let place = trail.place(l.negated());
        marks.mark(l.var());
        if place >= self.start {
            self.above += 1;
        } else if place < self.base {
            self.below += 1;
        } else {
            self.lits.push(l)?;
        }
        Ok(())
    }
}

/// Whether the literal is another one that the first `len` set literals do not make false.
pub fn is_open_other(trail: &Trail, len: usize, l: Lit, unit: Lit) -> bool
    requires { (l ≡ unit → ⊥) → is_set trail.now.lits (negated l) ≡ true }
    ensures { MatchBool result
        ((l ≡ unit → ⊥) × (is_set (take len trail.now.lits) (negated l) ≡ false))
        ((l ≡ unit → ⊥) → is_set (take len trail.now.lits) (negated l) ≡ true) }
{
    l != unit && trail.place(l.negated()) >= len
}
