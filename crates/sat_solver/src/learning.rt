//! What is learnt from a conflict.
ghost use Rattle.std.specs.Prelude.{◌≡◌, ◌-◌, ◌<◌, ◌≤◌, [], length, map, IfOk, All, MatchOption, slice_index, take, true, false};
ghost use Rattle.proof_log.specs.Literals.{negated};
ghost use Rattle.proof_log.specs.Derivations.{LeadsToConflict};
ghost use Rattle.sat_solver.specs.Searches.{IsFalseAt, search_of};
ghost use Rattle.proof_log.specs.Clauses.{is_set, IsNormal};
ghost use Rattle.sat_solver.specs.Engines.{IsSearch, level_floor};
ghost use Rattle.sat_solver.specs.Learning.{OthersFalse, IsFrontLen, IsLevel, IsLearnt};
ghost use Rattle.sat_solver.specs.Cuts.{FalseBy, IsAsserting};

use crate::cuts::{Cut, is_open_other};
use crate::marks::Marks;
use crate::minimising::minimise;
use crate::trails::Trail;
use proof_log::{Clause, ClauseTable, DerivStep, Lit};
use sdcv_base::Seq;
use std::alloc::{AllocError, Global};

/// An asserting clause: it follows by the step's hints, and after going back to the level all its
/// literals but the unit are false. The level is the greatest of those literals, 0 where there is
/// none.
#[derive(Debug, Drop)]
pub struct Learnt {
    pub step: DerivStep,
    pub level: usize,
    pub unit: Lit,
}

/// Learns a clause from a false one, at a level above 0.
pub fn analyze(
    alloc: Global,
    clauses: &ClauseTable,
    trail: &Trail,
    starts: &[usize],
    marks: &mut Marks,
    conflict: usize,
) -> Result<Learnt, AllocError>
    requires fits { trail.now.vars < length marks.old.stamps }
    requires search { IsSearch clauses.now trail.now starts.now }
    requires deep { 0 < length starts.now }
    requires normal { All IsNormal clauses.now }
    requires conflict { IsFalseAt clauses.now trail.now.lits conflict }
    ensures long { length marks.new.stamps ≡ length marks.old.stamps }
    ensures learnt { IfOk result (λ r. IsLearnt (search_of trail.now.vars clauses.now trail.now.lits starts.now) r.step r.level r.unit) }
{
    let (cut, at) = asserting_cut(alloc, clauses, trail, starts, marks, conflict)?;
    let lits = trail.lits();
    let clause = match Clause::normal(alloc, &cut.lits)? {
        // The literals are false together, so no two of them are complements.
        None => unreachable!(),
        Some(clause) => clause,
    };
    let unit = lits[at].negated();
    let level = asserting_level(trail, starts, clause.as_slice(), unit);
    Ok(Learnt {
        step: DerivStep {
            clause,
            hints: Seq::from_vec(cut.hints),
        },
        level,
        unit,
    })
}

/// The cut at the first unique implication point without the literals of level 0 and those that the
/// others make needless, its hints in order, and the place of the literal that makes its unit false.
fn asserting_cut(
    alloc: Global,
    clauses: &ClauseTable,
    trail: &Trail,
    starts: &[usize],
    marks: &mut Marks,
    conflict: usize,
) -> Result<(Cut, usize), AllocError>
    requires fits { trail.now.vars < length marks.old.stamps }
    requires search { IsSearch clauses.now trail.now starts.now }
    requires deep { 0 < length starts.now }
    requires normal { All IsNormal clauses.now }
    requires conflict { IsFalseAt clauses.now trail.now.lits conflict }
    ensures long { length marks.new.stamps ≡ length marks.old.stamps }
    ensures cut { IfOk result (λ r. IsAsserting clauses.now trail.now.lits (slice_index starts.now 0)
        (slice_index starts.now (length starts.now - 1)) r.1 r.0.lits.items r.0.hints.items) }
{
    let _lits = trail.lits();
    let mut cut = Cut::new(alloc, starts[0], starts[starts.len() - 1]);
    cut.mark_conflict(marks, clauses, trail, conflict)?;
    let at = cut.resolve_to_unit(marks, clauses, trail)?;
    cut.resolve_below(marks, clauses, trail)?;
    minimise(alloc, &mut cut, marks, clauses, trail)?;
    cut.hints.reverse();
    cut.lits.push(trail.lits()[at].negated())?;
    Ok((cut, at))
}

/// The least level whose literals, with those of the levels below, make all but the unit false.
fn asserting_level(trail: &Trail, starts: &[usize], lits: &[Lit], unit: Lit) -> usize
    requires some { 0 < length starts.now }
    requires falsified { FalseBy trail.now.lits lits.now }
    requires top { OthersFalse (take (slice_index starts.now (length starts.now - 1)) trail.now.lits) lits.now unit }
    ensures { IsLevel trail.now.lits starts.now lits.now unit result }
{
    let len = front_len(trail, lits, unit);
    let top = starts.len() - 1;
    for level in 0..top {
        if len <= starts[level] {
            return level;
        }
    }
    top
}

/// How many of the set literals, oldest first, make all but the unit false.
fn front_len(trail: &Trail, lits: &[Lit], unit: Lit) -> usize
    requires { FalseBy trail.now.lits lits.now }
    ensures { IsFrontLen trail.now.lits lits.now unit result }
{
    let _vars = trail.vars();
    let _len = trail.len();
    let mut len = 0;
    for l in lits {
        if is_open_other(trail, len, *l, unit) {
            len = trail.place(l.negated()) + 1;
        }
    }
    len
}

/// The empty step by which a false clause refutes the clauses, at level 0.
pub fn last_step(
    alloc: Global,
    clauses: &ClauseTable,
    trail: &Trail,
    marks: &mut Marks,
    conflict: usize,
) -> Result<DerivStep, AllocError>
    requires fits { trail.now.vars < length marks.old.stamps }
    requires search { IsSearch clauses.now trail.now [] }
    requires conflict { IsFalseAt clauses.now trail.now.lits conflict }
    ensures long { length marks.new.stamps ≡ length marks.old.stamps }
    ensures empty { IfOk result (λ s. s.clause ≡ []) }
    ensures follows { IfOk result (λ s. LeadsToConflict clauses.now [] s.hints) }
{
    let len = trail.len();
    let mut cut = Cut::new(alloc, len, len);
    cut.mark_conflict(marks, clauses, trail, conflict)?;
    cut.resolve_below(marks, clauses, trail)?;
    cut.hints.reverse();
    Ok(DerivStep {
        clause: Clause {
            lits: Seq::new(alloc),
        },
        hints: Seq::from_vec(cut.hints),
    })
}

/// A literal to be watched beside the unit: one of the level that the learnt clause goes back to.
pub fn second_watch(trail: &Trail, starts: &[usize], lits: &[Lit], learnt: &Learnt) -> Option<Lit>
    requires level { learnt.now.level < length starts.now }
    requires falsified { OthersFalse trail.now.lits lits.now learnt.now.unit }
    ensures { MatchOption result
        (OthersFalse (take (level_floor starts.now learnt.now.level) trail.now.lits) lits.now learnt.now.unit)
        (λ l. (is_set lits.now l ≡ true) × (l ≡ learnt.now.unit → ⊥)
        × (is_set (take (level_floor starts.now learnt.now.level) trail.now.lits) (negated l) ≡ false)) }
{
    let floor = floor_of(starts, learnt.level);
    for l in lits {
        if is_open_other(trail, floor, *l, learnt.unit) {
            return Some(*l);
        }
    }
    None
}

/// Where the level below that one begins, 0 for the lowest.
fn floor_of(starts: &[usize], level: usize) -> usize
    requires { level < length starts.now }
    ensures { result ≡ level_floor starts.now level }
{
    if level == 0 {
        return 0;
    }
    starts[level - 1]
}
