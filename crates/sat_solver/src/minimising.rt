//! Literals of a learnt clause that its others make needless (Sörensson and Biere, SAT 2009).
ghost use Rattle.std.specs.Prelude.{
  ◌≡◌,
  ◌+◌,
  ◌<◌,
  ◌≤◌,
  ◌&&◌,
  ◌↔◌,
  [],
  ◌∷◌,
  ◌++◌,
  All,
  IfOk,
  IsTrue,
  true,
  false,
  ℕ,
  length,
  map,
  reverse,
  slice_index,
  take,
};
ghost use Rattle.proof_log.specs.Literals.{lit_var, negated};
ghost use Rattle.proof_log.specs.Clauses.{is_set, IsNormal};
ghost use Rattle.sat_solver.specs.Cuts.{IsCovered, KeepsAsserting};
ghost use Rattle.sat_solver.specs.Markings.{is_marked, marked_lits, AreBetween, AreFewer};

use crate::cuts::Cut;
use crate::marks::Marks;
use crate::trails::Trail;
use proof_log::{ClauseTable, Lit, LitSet};
use std::alloc::{AllocError, Global};

/// Resolves away each literal of the levels between whose reason has no others but those of the
/// cut. The one that was falsified last goes first, since its reason may have the others.
pub fn minimise(
    alloc: Global,
    cut: &mut Cut,
    marks: &mut Marks,
    clauses: &ClauseTable,
    trail: &Trail,
) -> Result<(), AllocError>
    requires fits { trail.now.vars < length marks.old.stamps }
    requires within { cut.old.start ≤ length trail.now.lits }
    requires normal { All IsNormal clauses.now }
    requires between { AreBetween trail.now.lits cut.old.base cut.old.start marks.old cut.old.lits.items }
    ensures long { length marks.new.stamps ≡ length marks.old.stamps }
    ensures between { IfOk result (λ _. AreBetween trail.now.lits cut.old.base cut.old.start marks.new cut.new.lits.items) }
    ensures asserting { IfOk result (λ _. KeepsAsserting clauses.now trail.now.lits cut.old.base cut.old.start
        (marked_lits marks.old trail.now.lits) cut.old.hints.items (marked_lits marks.new trail.now.lits) cut.new.hints.items) }
{
    let mut places = places_of(alloc, trail, &cut.lits, cut.start)?;
    places.sort_unstable();
    drop_covered(cut, marks, clauses, trail, places)?;
    cut.lits = still_marked(alloc, marks, trail, &cut.lits)?;
    Ok(())
}

/// The places of the literals that make these false, each below the start.
fn places_of(
    alloc: Global,
    trail: &Trail,
    lits: &[Lit],
    start: usize,
) -> Result<Vec<usize>, AllocError>
    requires { (l : ℕ) → is_set lits.now l ≡ true → is_set (take start trail.now.lits) (negated l) ≡ true }
    ensures { IfOk result (λ ps. All (λ n. n < start) ps.items) }
{
    let mut places = Vec::with_capacity(alloc, lits.len())?;
    for l in lits {
        let place = trail.place(l.negated());
        places.push(place)?;
    }
    Ok(places)
}

/// Resolves away those of the literals that these places make false that the others cover, from the
/// last place on.
fn drop_covered(
    cut: &mut Cut,
    marks: &mut Marks,
    clauses: &ClauseTable,
    trail: &Trail,
    mut places: Vec<usize>,
) -> Result<(), AllocError>
    requires fits { trail.now.vars < length marks.old.stamps }
    requires within { cut.old.start ≤ length trail.now.lits }
    requires normal { All IsNormal clauses.now }
    requires before { All (λ n. n < cut.old.start) places.items }
    ensures long { length marks.new.stamps ≡ length marks.old.stamps }
    ensures base { cut.new.base ≡ cut.old.base }
    ensures start { cut.new.start ≡ cut.old.start }
    ensures lits { cut.new.lits ≡ cut.old.lits }
    ensures fewer { IfOk result (λ _. AreFewer marks.old marks.new) }
    ensures asserting { IfOk result (λ _. KeepsAsserting clauses.now trail.now.lits cut.old.base cut.old.start
        (marked_lits marks.old trail.now.lits) cut.old.hints.items (marked_lits marks.new trail.now.lits) cut.new.hints.items) }
{
    while let Some(place) = places.pop() {
        drop_if_covered(cut, marks, clauses, trail, place)?;
    }
    Ok(())
}

fn drop_if_covered(
    cut: &mut Cut,
    marks: &mut Marks,
    clauses: &ClauseTable,
    trail: &Trail,
    place: usize,
) -> Result<(), AllocError>
    requires fits { trail.now.vars < length marks.old.stamps }
    requires within { cut.old.start ≤ length trail.now.lits }
    requires normal { All IsNormal clauses.now }
    requires before { place < cut.old.start }
    ensures long { length marks.new.stamps ≡ length marks.old.stamps }
    ensures base { cut.new.base ≡ cut.old.base }
    ensures start { cut.new.start ≡ cut.old.start }
    ensures lits { cut.new.lits ≡ cut.old.lits }
    ensures fewer { IfOk result (λ _. AreFewer marks.old marks.new) }
    ensures asserting { IfOk result (λ _. KeepsAsserting clauses.now trail.now.lits cut.old.base cut.old.start
        (marked_lits marks.old trail.now.lits) cut.old.hints.items (marked_lits marks.new trail.now.lits) cut.new.hints.items) }
{
    let _lits = trail.lits();
    let _reasons = trail.reasons();
    let p = trail.lits()[place];
    let reason = trail.reasons()[place];
    if reason >= clauses.len() || !marks.is_marked(p.var()) {
        return Ok(());
    }
    if is_covered(marks, trail, clauses.clause(reason), p) {
        cut.hints.push(reason as u64 + 1)?;
        marks.unmark(p.var());
    }
    Ok(())
}

/// Whether the clause has the literal, and each other one of its literals is in the cut. A decision
/// has no reason of its own, so any clause may stand in its place.
fn is_covered(marks: &Marks, trail: &Trail, clause: &[Lit], p: Lit) -> bool
    requires { trail.now.vars < length marks.now.stamps }
    ensures { IsTrue result ↔ IsCovered (marked_lits marks.now trail.now.lits) clause.now p }
{
    let mut has = false;
    for q in clause {
        if *q == p {
            has = true;
        } else if !is_in_cut(marks, trail, *q) {
            return false;
        }
    }
    has
}

fn is_in_cut(marks: &Marks, trail: &Trail, l: Lit) -> bool
    requires { trail.now.vars < length marks.now.stamps }
    ensures { result ≡ is_set (marked_lits marks.now trail.now.lits) l }
{
    let _lits = trail.lits();
    if !trail.is_set(l.negated()) {
        return false;
    }
    marks.is_marked(l.var())
}

/// The literals whose variables are still marked.
fn still_marked(
    alloc: Global,
    marks: &Marks,
    trail: &Trail,
    lits: &[Lit],
) -> Result<Vec<Lit>, AllocError>
    requires { trail.now.vars < length marks.now.stamps }
    ensures { IfOk result (λ ls. (l : ℕ) → is_set ls.items l ≡ (is_set lits.now l && is_set (marked_lits marks.now trail.now.lits) l)) }
{
    let mut kept = Vec::with_capacity(alloc, lits.len())?;
    for l in lits {
        if is_in_cut(marks, trail, *l) {
            kept.push(*l)?;
        }
    }
    Ok(kept)
}
