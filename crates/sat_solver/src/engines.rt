//! The steps of a search: propagate, decide, go back, learn.
ghost use Rattle.std.specs.Prelude.{
  ◌≡◌,
  ◌+◌,
  ◌*◌,
  ◌^◌,
  ◌<◌,
  ◌≤◌,
  ◌⊎◌,
  [],
  ◌∷◌,
  ◌++◌,
  take,
  length,
  true,
  false,
  All,
  MatchBool,
  MatchOption,
  IfSome,
  IfNone,
  IfOk,
  OnErr,
  slice_index,
  ℕ,
};
ghost use Rattle.proof_log.specs.Literals.{negated, literal, InVars};
ghost use Rattle.proof_log.specs.Clauses.{is_set, clause_true, IsNormal};
ghost use Rattle.proof_log.specs.Derivations.{LeadsToConflict};
ghost use Rattle.proof_log.specs.Formulas.{IsFormula, value_in};
ghost use Rattle.sat_solver.specs.Searches.{Search, IsQuiet, IsFalseAt, Propagates, lits_up_to, AllSet, AllInVars, IsUnset};
ghost use Rattle.sat_solver.specs.Watches.{IsQueued};
ghost use Rattle.sat_solver.specs.Learning.{IsLearnt};

use crate::activities::Activities;
use crate::counts::Counts;
use crate::learning::{Learnt, analyze, last_step, second_watch};
use crate::marks::Marks;
use crate::propagation::Queue;
use crate::trails::Trail;
use proof_log::{ClauseTable, DerivStep, Formula, Lit, LitSet};
use sdcv_base::Seq;
use std::alloc::{AllocError, Global};
use std::marker::Model;

/// Clauses, the literals that are set, and where among these each level begins. The places of
/// clauses count from 0: the formula's in order, then the learnt ones in order.
///
/// What always holds (`IsSearch`):
/// - in_vars: the clauses are over the variables 1 to `vars`.
/// - ordered, deep, within: level k + 1 begins at `lits[starts[k]]`, its decision; a later level
///   begins later, and none is empty.
/// - quiet: for each level below the present one, the literals set up to it make no clause false,
///   and leave none unit with its literal unset.
/// - paired, justified: a literal that opens no level was the unset literal of its reason, a clause
///   that was unit at that moment.
///
/// That no clause is false or unit at the present level holds only after `propagate` has said so.
#[derive(Drop)]
pub struct Engine {
    clauses: ClauseTable,
    trail: Trail,
    starts: Vec<usize>,
    walks: Vec<usize>,
    queue: Queue,
    activities: Activities,
    marks: Marks,
    counts: Counts,
}

impl Model for Engine {
    ghost use Rattle.std.specs.Prelude.{vec_capacity, length, ◌+◌, ◌≤◌, ◌<◌};
    ghost use Rattle.sat_solver.specs.Searches.{Search, search_of};
    ghost use Rattle.sat_solver.specs.Engines.{IsEngine, AreWaiting};

    ghost Value = { Search };

    ghost view = { λ e. search_of e.trail.vars e.clauses e.trail.lits e.starts.items };

    ghost invariant = { λ e. IsEngine e.clauses e.trail e.starts.items e.walks.items e.queue
        × (e.trail.vars + 1 ≤ vec_capacity e.starts) × (e.trail.vars + 1 ≤ vec_capacity e.walks)
        × AreWaiting e.trail.vars e.trail.lits e.activities.waiting × (e.trail.vars < length e.marks.stamps) };
}

impl Engine {
    /// The formula's clauses, with no literal set, at level 0. Unit clauses wait. There is room for
    /// as many set literals and levels as there are variables.
    pub fn load(alloc: Global, formula: &Formula) -> Result<Engine, AllocError>
        requires { IsFormula formula.now }
        ensures { IfOk result (λ e. e
            ≡ record { vars = formula.now.vars; clauses = formula.now.clauses; lits = []; starts = [] }) }
    {
        let clauses = formula.clauses.copy(alloc)?;
        let trail = Trail::new(alloc, formula.vars)?;
        let starts = Vec::with_capacity(alloc, formula.vars as usize + 1)?;
        let walks = Vec::with_capacity(alloc, formula.vars as usize + 1)?;
        let queue = queue_of(alloc, formula.vars, &formula.clauses)?;
        let activities = Activities::new(alloc, formula.vars)?;
        let marks = Marks::new(alloc, formula.vars)?;
        Ok(Engine {
            clauses,
            trail,
            starts,
            walks,
            queue,
            activities,
            marks,
            counts: Counts::new(),
        })
    }

    /// The present level: how many decisions stand.
    pub fn level(&self) -> usize
        ensures value { result ≡ length self.now.starts }
        ensures quiet_below { (k : ℕ) → k < length self.now.starts
            → IsQuiet self.now.clauses (lits_up_to self.now k) }
    {
        self.starts.len()
    }

    /// Sets the unset literal of each unit clause until none waits, or a clause is false, whose
    /// place is told. It takes no memory.
    pub fn propagate(&mut self) -> Option<usize>
        ensures lits { self.new ≡ record self.old { lits = self.new.lits } }
        ensures propagates { Propagates self.old.clauses self.old.lits self.new.lits }
        ensures settled { MatchOption result
            (IsQuiet self.new.clauses self.new.lits)
            (λ place. IsFalseAt self.new.clauses self.new.lits place) }
        ensures few { length self.new.lits ≤ self.new.vars + 1 }
    {
        let before = self.trail.len();
        let conflict = self.queue.settle(&self.clauses, &mut self.trail);
        let set = self.trail.len().saturating_sub(before);
        self.counts.add(set, conflict.is_some());
        conflict
    }

    /// Opens a level with an unset variable, or is `None` where every variable is set. It takes no
    /// memory.
    pub fn decide(&mut self) -> Option<Lit>
        requires { IsQuiet self.old.clauses self.old.lits }
        ensures all_set { IfNone result (AllSet self.old.vars self.old.lits) }
        ensures stays { IfNone result (self.new ≡ self.old) }
        ensures unset { IfSome result (λ l. IsUnset self.old.vars self.old.lits l) }
        ensures opens { IfSome result (λ l. self.new
            ≡ record self.old { lits = self.old.lits ++ l ∷ []; starts = self.old.starts ++ length self.old.lits ∷ [] }) }
        ensures few { IfSome result (λ l. length self.new.lits ≤ self.new.vars + 1) }
    {
        let l = self.activities.next_unset(&self.trail)?;
        let start = self.trail.len();
        self.trail.set(l, 0);
        self.starts.push_reserved(start);
        self.walks.push_reserved(self.queue.done);
        Some(l)
    }

    /// Unsets the literals of the levels above that one. It takes no memory.
    pub fn backjump(&mut self, level: usize)
        requires { level ≤ length self.old.starts }
        ensures back { level < length self.old.starts
            → self.new ≡ record self.old { lits = lits_up_to self.old level; starts = take level self.old.starts } }
        ensures stays { level ≡ length self.old.starts → self.new ≡ self.old }
    {
        if level < self.starts.len() {
            let from = self.starts[level];
            self.activities.release(&self.trail, from);
            self.trail.truncate(from);
            self.queue.done = self.walks[level];
            self.starts.truncate(level);
            self.walks.truncate(level);
        }
    }

    /// Learns an asserting clause from the false one at that place, goes back to its level, and
    /// sets its unit there. After an `Err` the engine is unchanged.
    pub fn learn(&mut self, alloc: Global, conflict: usize) -> Result<Learnt, AllocError>
        requires above { 0 < length self.old.starts }
        requires conflict { IsFalseAt self.old.clauses self.old.lits conflict }
        ensures learnt { IfOk result (λ r. IsLearnt self.old r.step r.level r.unit) }
        ensures asserted { IfOk result (λ r. self.new ≡ record {
          vars = self.old.vars;
          clauses = self.old.clauses ++ r.step.clause ∷ [];
          lits = lits_up_to self.old r.level ++ r.unit ∷ [];
          starts = take r.level self.old.starts;
        }) }
        ensures err { OnErr result (self.new ≡ self.old) }
    {
        let learnt = analyze(
            alloc,
            &self.clauses,
            &self.trail,
            &self.starts,
            &mut self.marks,
            conflict,
        )?;
        let place = self.clauses.len();
        let lits = learnt.step.clause.as_slice();
        self.queue.provide(place)?;
        self.clauses.push(lits)?;
        self.activities
            .raise_hints(&self.clauses, learnt.step.hints.as_slice());
        let second = second_watch(&self.trail, &self.starts, lits, &learnt);
        let from = self.starts[learnt.level];
        self.activities.release(&self.trail, from);
        self.trail.truncate(from);
        self.queue.done = self.walks[learnt.level];
        self.starts.truncate(learnt.level);
        self.walks.truncate(learnt.level);
        self.queue.watch(place, learnt.unit, second);
        self.trail.set(learnt.unit, place);
        Ok(learnt)
    }

    /// What was done since the clauses were loaded.
    pub fn counts(&self) -> Counts {
        self.counts
    }

    /// The last step of a refutation, from the false clause at that place, at level 0.
    pub(crate) fn last_step(
        &mut self,
        alloc: Global,
        conflict: usize,
    ) -> Result<DerivStep, AllocError>
        requires no_level { self.old.starts ≡ [] }
        requires conflict { IsFalseAt self.old.clauses self.old.lits conflict }
        ensures empty { IfOk result (λ s. s.clause ≡ []) }
        ensures follows { IfOk result (λ s. LeadsToConflict self.old.clauses [] s.hints) }
    {
        last_step(alloc, &self.clauses, &self.trail, &mut self.marks, conflict)
    }

    /// The values of the variables, where every variable is set and no clause is false.
    pub(crate) fn values(&self, alloc: Global) -> Result<Seq<bool>, AllocError>
        requires quiet { IsQuiet self.now.clauses self.now.lits }
        requires set { AllSet self.now.vars self.now.lits }
        ensures long { IfOk result (λ vs. length vs ≡ self.now.vars) }
        ensures model { IfOk result (λ vs. All (λ c. clause_true (value_in vs) c ≡ true) self.now.clauses) }
    {
        let _lits = self.trail.lits();
        let mut values = Seq::new(alloc);
        for var in 1..self.trail.vars() + 1 {
            values.push(self.trail.is_set(Lit::new(var, true)))?;
        }
        Ok(values)
    }
}

/// A queue for the clauses, none of which is looked at.
fn queue_of(alloc: Global, vars: u32, clauses: &ClauseTable) -> Result<Queue, AllocError>
    requires few { vars < 2 ^ 31 }
    requires in_vars { AllInVars vars clauses.now }
    requires normal { All IsNormal clauses.now }
    ensures { IfOk result (λ q. IsQueued clauses.now (record { vars = vars; lits = []; reasons = [] }) q) }
{
    let mut queue = Queue::new(alloc, vars)?;
    for place in 0..clauses.len() {
        queue.add_clause(place, clauses.clause(place))?;
    }
    Ok(queue)
}
