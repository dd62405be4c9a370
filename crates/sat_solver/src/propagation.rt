//! Unit propagation by two watched literals of each clause (Moskewicz et al., Chaff, DAC 2001).
ghost use Rattle.std.specs.Prelude.{
  ◌≡◌,
  ◌+◌,
  ◌*◌,
  ◌^◌,
  ◌<◌,
  ◌≤◌,
  ℕ,
  [],
  All,
  MatchBool,
  MatchOption,
  OnOk,
  IfOk,
  IfSome,
  length,
  set,
  take,
  slice_index,
  true,
  false,
};
ghost use Rattle.proof_log.specs.Literals.{negated, InVars};
ghost use Rattle.proof_log.specs.Clauses.{is_set, IsNormal};
ghost use Rattle.sat_solver.specs.Searches.{AllInVars, IsQuiet, IsFalseAt};
ghost use Rattle.sat_solver.specs.Learning.{OthersFalse};
ghost use Rattle.sat_solver.specs.Trails.{Extends};
ghost use Rattle.sat_solver.specs.Watches.{
  CanWalk,
  Walks,
  AreWalked,
  LookMeans,
  VisitMeans,
  IsQueued,
  Settles,
  IsNewQueue,
  IsAdded,
  HasMore,
  HasTrue,
  IsOpenAt,
  clause_at,
  watched,
};

use crate::trails::Trail;
use proof_log::{ClauseTable, Effect, Lit, LitSet};
use std::alloc::{AllocError, Global};
use watch_lists::Watches;

/// The watches of the clauses, how many set literals have had their watches walked, how many
/// clauses have been looked at for a first time, and for each clause the place of the literal that
/// was last found to be watched: the next search begins there (Gent, JAIR 2013).
///
/// Of the places where searches begin nothing is known, and nothing depends on them.
#[derive(Drop)]
pub struct Queue {
    pub watches: Watches,
    pub done: usize,
    pub looked: usize,
    pub starts: Vec<u32>,
}

/// What a clause tells where one of its two watched literals became false.
#[derive(Clone, Copy, Debug, PartialEq, Eq)]
pub enum Look {
    /// Its other watched literal is true.
    Satisfied,
    /// A literal that is not false can be watched in place of the false one, and stands at that
    /// place of the clause.
    Moves(Lit, usize),
    /// Its other watched literal is unset, and all else is false.
    Implies,
    /// All its literals are false.
    Falsified,
}

/// A step of the walk along the watches of a literal that became false.
#[derive(Clone, Copy, Debug, PartialEq, Eq)]
pub enum Visit {
    /// No watch is left.
    End,
    /// The watch has a true partner now, or has moved.
    Next,
    /// The clause at that place is false.
    Conflict(usize),
}

impl Queue {
    /// No clause is looked at, and there are lists for the literals of so many variables.
    pub fn new(alloc: Global, vars: u32) -> Result<Queue, AllocError>
        requires { vars < 2 ^ 31 }
        ensures { IfOk result (λ q. IsNewQueue vars q) }
    {
        let watches = Watches::new(alloc, 2 * vars as usize + 2)?;
        Ok(Queue {
            watches,
            done: 0,
            looked: 0,
            starts: Vec::new(alloc),
        })
    }

    /// Makes watches for the clauses up to that place, each on no literal.
    pub fn provide(&mut self, place: usize) -> Result<(), AllocError>
        requires { place < 2 ^ 63 }
        ensures more { HasMore self.old self.new }
        ensures room { OnOk result (2 * place + 1 < length self.new.watches.literals) }
    {
        while self.watches.len() / 2 <= place {
            self.watches.add()?;
        }
        if self.starts.len() <= place {
            self.starts.push(0)?;
        }
        Ok(())
    }

    /// Makes watches for the clause at that place, and lets it be watched by its first two literals.
    pub fn add_clause(&mut self, place: usize, lits: &[Lit]) -> Result<(), AllocError>
        requires few { place < 2 ^ 63 }
        requires first_free { slice_index self.old.watches.literals (2 * place) ≡ 0 }
        requires second_free { slice_index self.old.watches.literals (2 * place + 1) ≡ 0 }
        requires low { (l : ℕ) → is_set lits.now l ≡ true → l < self.old.watches.limit }
        ensures { IfOk result (λ _. IsAdded place lits.now self.old self.new) }
    {
        self.provide(place)?;
        if lits.len() < 2 {
            return Ok(());
        }
        self.watch(place, lits[0], Some(lits[1]));
        Ok(())
    }

    /// Lets the clause at that place be watched by two of its literals, if it has a second one.
    pub fn watch(&mut self, place: usize, first: Lit, second: Option<Lit>)
        requires few { place < 2 ^ 63 }
        requires room { 2 * place + 1 < length self.old.watches.literals }
        requires first_free { slice_index self.old.watches.literals (2 * place) ≡ 0 }
        requires second_free { slice_index self.old.watches.literals (2 * place + 1) ≡ 0 }
        requires first_low { first < self.old.watches.limit }
        requires second_low { IfSome second (λ l. l < self.old.watches.limit) }
        ensures watched { MatchOption second
            (self.new.watches.literals ≡ self.old.watches.literals)
            (λ l. self.new.watches.literals ≡ set (set self.old.watches.literals (2 * place) first) (2 * place + 1) l) }
        ensures limit { self.new.watches.limit ≡ self.old.watches.limit }
        ensures waiting { self.new.watches.waiting ≡ self.old.watches.waiting }
        ensures done { self.new.done ≡ self.old.done }
        ensures looked { self.new.looked ≡ self.old.looked }
    {
        if let Some(second) = second {
            self.watches.attach(2 * place, first.index() as u32);
            self.watches.attach(2 * place + 1, second.index() as u32);
        }
    }

    /// Sets the unset literal of each unit clause until none waits, or a clause is false, whose
    /// place is told. It takes no memory.
    pub fn settle(&mut self, clauses: &ClauseTable, trail: &mut Trail) -> Option<usize>
        requires in_vars { AllInVars trail.old.vars clauses.now }
        requires normal { All IsNormal clauses.now }
        requires queued { IsQueued clauses.now trail.old self.old }
        ensures settles { Settles clauses.now trail.old self.old trail.new self.new }
        ensures settled { MatchOption result
            (IsQuiet clauses.now trail.new.lits)
            (λ place. IsFalseAt clauses.now trail.new.lits place) }
    {
        if let Some(place) = self.look_at_new(clauses, trail) {
            return Some(place);
        }
        let _len = trail.len();
        while self.done < trail.len() {
            if let Some(place) = self.walk_next(clauses, trail) {
                return Some(place);
            }
        }
        let _lits = trail.lits();
        None
    }

    /// Looks at the clauses that were not looked at, and sets the literals of those that have no
    /// other.
    fn look_at_new(&mut self, clauses: &ClauseTable, trail: &mut Trail) -> Option<usize>
        requires in_vars { AllInVars trail.old.vars clauses.now }
        requires queued { IsQueued clauses.now trail.old self.old }
        ensures settles { Settles clauses.now trail.old self.old trail.new self.new }
        ensures looked { MatchOption result
            (length clauses.now ≤ self.new.looked)
            (λ place. IsFalseAt clauses.now trail.new.lits place) }
    {
        let _len = trail.len();
        while self.looked < clauses.len() {
            if !set_short(clauses, trail, self.looked) {
                return Some(self.looked);
            }
            self.looked += 1;
        }
        None
    }

    /// Walks along the watches of the complement of the next set literal.
    fn walk_next(&mut self, clauses: &ClauseTable, trail: &mut Trail) -> Option<usize>
        requires in_vars { AllInVars trail.old.vars clauses.now }
        requires normal { All IsNormal clauses.now }
        requires queued { IsQueued clauses.now trail.old self.old }
        requires within { self.old.done < length trail.old.lits }
        ensures settles { Settles clauses.now trail.old self.old trail.new self.new }
        ensures looked { self.new.looked ≡ self.old.looked }
        ensures done { MatchOption result
            (self.new.done ≡ self.old.done + 1)
            (λ place. IsFalseAt clauses.now trail.new.lits place) }
    {
        let falsified = trail.lits()[self.done].negated();
        self.watches.gather(falsified.index() as u32);
        match walk(
            clauses,
            trail,
            &mut self.watches,
            &mut self.starts,
            falsified,
        ) {
            Some(place) => Some(place),
            None => {
                self.done += 1;
                None
            }
        }
    }
}

/// Sets the literal of a clause that has no other. The answer is false where the clause is false.
fn set_short(clauses: &ClauseTable, trail: &mut Trail, place: usize) -> bool
    requires in_vars { AllInVars trail.old.vars clauses.now }
    requires within { place < length clauses.now }
    ensures extends { Extends clauses.now trail.old trail.new }
    ensures holds { MatchBool result
        (length (clause_at clauses.now place) < 2 → HasTrue trail.new.lits (clause_at clauses.now place))
        (IsFalseAt clauses.now trail.new.lits place) }
{
    let _len = trail.len();
    let clause = clauses.clause(place);
    if clause.len() >= 2 {
        return true;
    }
    match trail.effect(clause) {
        Effect::Falsified => return false,
        Effect::Sets(u) => trail.set(u, place),
        Effect::Neither => {}
    }
    true
}

/// Visits the watches that wait, all on the false literal, until none does or a clause is false.
fn walk(
    clauses: &ClauseTable,
    trail: &mut Trail,
    watches: &mut Watches,
    starts: &mut [u32],
    falsified: Lit,
) -> Option<usize>
    requires { CanWalk clauses.now falsified trail.old watches.old }
    ensures walks { Walks clauses.now falsified trail.old watches.old trail.new watches.new }
    ensures none_waits { watches.new.waiting ≡ [] }
    ensures walked { MatchOption result
        ((done : ℕ) → done ≤ length trail.old.lits → AreWalked done trail.old watches.old → AreWalked done trail.new watches.new)
        (λ place. IsFalseAt clauses.now trail.new.lits place) }
{
    let _len = trail.len();
    let _lits = trail.lits();
    loop {
        match visit_one(clauses, trail, watches, starts, falsified) {
            Visit::End => return None,
            Visit::Next => {}
            Visit::Conflict(place) => {
                put_back(watches, falsified);
                return Some(place);
            }
        }
    }
}

/// Puts the watches that wait back onto their literal.
fn put_back(watches: &mut Watches, falsified: Lit)
    requires low { falsified < watches.old.limit }
    requires waits { (n : ℕ) → is_set watches.old.waiting n ≡ true → watched watches.old.literals n ≡ falsified }
    ensures { watches.new ≡ record watches.old { waiting = [] } }
{
    while let Some(watch) = watches.take() {
        watches.attach(watch, falsified.index() as u32);
    }
}

/// Looks at a clause whose other watched literal is this one.
fn look_into(trail: &Trail, clauses: &ClauseTable, place: usize, other: Lit, starts: &[u32]) -> Look
    requires { place < length clauses.now }
    ensures { LookMeans trail.now.lits (clause_at clauses.now place) other result }
{
    if trail.is_set(other) {
        return Look::Satisfied;
    }
    let clause = clauses.clause(place);
    let start = starts.get(place).copied().unwrap_or(0);
    if let Some(at) = open_other(trail, clause, other, start as usize) {
        return Look::Moves(clause[at], at);
    }
    if trail.is_set(other.negated()) {
        Look::Falsified
    } else {
        Look::Implies
    }
}

/// The place of a literal that is another one and not false, looked for from the start to the end
/// and then from the front.
fn open_other(trail: &Trail, clause: &[Lit], other: Lit, start: usize) -> Option<usize>
    ensures { MatchOption result
        (OthersFalse trail.now.lits clause.now other)
        (λ at. IsOpenAt trail.now.lits clause.now other at) }
{
    let (front, back) = clause.split_at(start.min(clause.len()));
    if let Some(at) = first_open(trail, back, other) {
        return Some(front.len() + at);
    }
    first_open(trail, front, other)
}

fn first_open(trail: &Trail, lits: &[Lit], other: Lit) -> Option<usize>
    ensures { MatchOption result
        (OthersFalse trail.now.lits lits.now other)
        (λ at. IsOpenAt trail.now.lits lits.now other at) }
{
    for (at, l) in lits.iter().enumerate() {
        if is_open(trail, *l, other) {
            return Some(at);
        }
    }
    None
}

fn is_open(trail: &Trail, l: Lit, other: Lit) -> bool
    ensures { MatchBool result
        ((l ≡ other → ⊥) × (is_set trail.now.lits (negated l) ≡ false))
        ((l ≡ other → ⊥) → is_set trail.now.lits (negated l) ≡ true) }
{
    l != other && !trail.is_set(l.negated())
}

/// The other watch of the same clause.
fn other_watch(watch: usize) -> usize
    requires { watch + 1 < 2 ^ 64 }
    ensures { result ≡ negated watch }
{
    if watch % 2 == 0 { watch + 1 } else { watch - 1 }
}

/// The literal of that number.
fn lit_of(number: u32) -> Lit
    requires { 2 ≤ number }
    ensures { result ≡ number }
{
    Lit::new(number / 2, number % 2 == 0)
}

/// Lets the next search in the clause at that place begin at that literal.
fn start_at(starts: &mut [u32], place: usize, at: usize) {
    if place < starts.len() && at < 0xffff_ffff {
        starts[place] = at as u32;
    }
}

/// Visits one of the watches on the false literal.
fn visit_one(
    clauses: &ClauseTable,
    trail: &mut Trail,
    watches: &mut Watches,
    starts: &mut [u32],
    falsified: Lit,
) -> Visit
    requires { CanWalk clauses.now falsified trail.old watches.old }
    ensures { VisitMeans clauses.now falsified trail.old watches.old trail.new watches.new result }
{
    let _len = trail.len();
    let _lits = trail.lits();
    let _count = watches.len();
    let Some(watch) = watches.take() else {
        return Visit::End;
    };
    let place = watch / 2;
    let other = lit_of(watches.literal(other_watch(watch)));
    match look_into(trail, clauses, place, other, starts) {
        Look::Satisfied => {
            watches.attach(watch, falsified.index() as u32);
            Visit::Next
        }
        Look::Moves(q, at) => {
            start_at(starts, place, at);
            watches.attach(watch, q.index() as u32);
            Visit::Next
        }
        Look::Implies => {
            watches.attach(watch, falsified.index() as u32);
            trail.set(other, place);
            Visit::Next
        }
        Look::Falsified => {
            watches.attach(watch, falsified.index() as u32);
            Visit::Conflict(place)
        }
    }
}
