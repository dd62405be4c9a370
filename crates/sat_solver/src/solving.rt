//! The solver: search, learn, and search again.
ghost use Rattle.std.specs.Prelude.{◌≡◌, ◌+◌, ◌^◌, ◌≤◌, [], length, IfOk, MatchOption};
ghost use Rattle.proof_log.specs.Formulas.{IsFormula};
ghost use Rattle.sat_solver.specs.Searches.{IsQuiet, IsFalseAt, AllSet};
ghost use Rattle.sat_solver.specs.Answers.{IsAnswer, IsSpent, formula_of, answer_of};

use crate::counts::Counts;
use crate::engines::Engine;
use crate::restarts::Restarts;
use proof_log::{DerivStep, Derivation, Formula, Model};
use sdcv_base::Seq;
use std::alloc::{AllocError, Global};

/// What is found of a formula.
#[derive(Debug, Drop)]
pub enum Answer {
    /// A model.
    Sat(Model),
    /// A derivation that refutes the formula.
    Unsat(Derivation),
    /// As many new clauses as the budget says, each of which follows.
    Spent(Derivation),
}

/// An answer, and what the search did for it.
#[derive(Debug, Drop)]
pub struct Solved {
    pub answer: Answer,
    pub counts: Counts,
}

/// Looks for a model of the formula. The budget bounds the clauses that are learnt; conflicts at
/// level 0 count against none. The search goes on after the last one, until the next conflict above
/// level 0.
pub fn solve(alloc: Global, formula: &Formula, budget: u64) -> Result<Answer, AllocError>
    requires { IsFormula formula.now }
    ensures answer { IfOk result (IsAnswer formula.now budget) }

    // There are 3 ^ vars clauses without complementary literals, and each step of a log is new.
    ensures never_spent { 3 ^ formula.now.vars ≤ budget → IfOk result (λ a. IsSpent a → ⊥) }
{
    let solved = solve_counted(alloc, formula, budget)?;
    Ok(solved.answer)
}

/// The same, with what the search did.
pub fn solve_counted(alloc: Global, formula: &Formula, budget: u64) -> Result<Solved, AllocError>
    requires { IsFormula formula.now }
    ensures answer { IfOk result (λ s. IsAnswer formula.now budget s.answer) }
    ensures never_spent { 3 ^ formula.now.vars ≤ budget → IfOk result (λ s. IsSpent s.answer → ⊥) }
{
    let mut engine = Engine::load(alloc, formula)?;
    let mut steps = Seq::new(alloc);
    let end = log(alloc, &mut engine, budget, &mut steps)?;
    Ok(Solved {
        answer: answered(end, steps),
        counts: engine.counts(),
    })
}

/// How a search with learning ends.
#[derive(Drop)]
pub(crate) enum End {
    /// With a value for each variable.
    Values(Seq<bool>),
    /// With a conflict at level 0.
    Refuted,
    /// With as many new clauses as the budget says.
    Spent,
}

// The answer that an end is, with the clauses that were learnt.
fn answered(end: End, steps: Seq<DerivStep>) -> Answer
    ensures { result ≡ answer_of end steps }
{
    match end {
        End::Values(values) => Answer::Sat(Model { values }),
        End::Refuted => Answer::Unsat(Derivation { steps }),
        End::Spent => Answer::Spent(Derivation { steps }),
    }
}

// Searches and learns, and notes each clause that is learnt and the last step of a refutation.
fn log(
    alloc: Global,
    engine: &mut Engine,
    budget: u64,
    steps: &mut Seq<DerivStep>,
) -> Result<End, AllocError>
    requires { steps.old ≡ [] }
    ensures answer { IfOk result (λ end. IsAnswer (formula_of engine.old) budget (answer_of end steps.new)) }
    ensures never_spent { 3 ^ engine.old.vars ≤ budget → IfOk result (λ end. IsSpent (answer_of end steps.new) → ⊥) }
{
    let mut restarts = Restarts::new();
    loop {
        let Some(conflict) = search(engine) else {
            let values = engine.values(alloc)?;
            return Ok(End::Values(values));
        };
        if engine.level() == 0 {
            steps.push(engine.last_step(alloc, conflict)?)?;
            return Ok(End::Refuted);
        }
        if steps.len() as u64 == budget {
            return Ok(End::Spent);
        }
        let learnt = engine.learn(alloc, conflict)?;
        steps.push(learnt.step)?;
        restart(engine, &mut restarts);
    }
}

/// Goes back to level 0 where a restart is due. The clauses stay, and no clause is learnt twice
/// whatever the level, so the search ends as it would without.
fn restart(engine: &mut Engine, restarts: &mut Restarts)
    ensures vars { engine.new.vars ≡ engine.old.vars }
    ensures clauses { engine.new.clauses ≡ engine.old.clauses }
{
    if restarts.is_due() {
        engine.backjump(0);
    }
}

/// Propagates and decides until a clause is false, whose place is told, or every variable is set.
fn search(engine: &mut Engine) -> Option<usize>
    ensures vars { engine.new.vars ≡ engine.old.vars }
    ensures clauses { engine.new.clauses ≡ engine.old.clauses }
    ensures settled { MatchOption result
        (IsQuiet engine.new.clauses engine.new.lits × AllSet engine.new.vars engine.new.lits)
        (λ place. IsFalseAt engine.new.clauses engine.new.lits place) }
{
    loop {
        if let Some(place) = engine.propagate() {
            return Some(place);
        }
        if engine.decide().is_none() {
            return None;
        }
    }
}
