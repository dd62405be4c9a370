//! Formulas with a model and without, and the steps of the search, known by hand.
use crate::numbers::{formula, push_clause, sure};
use proof_log::{ClauseTable, Formula};
use rup_check::check;
use sat_solver::{Answer, Engine, Learnt, solve};
use std::alloc::{AllocError, Global};

// What is found of a formula.
#[derive(Clone, Copy, PartialEq, Eq)]
enum Found {
    NotNormal,
    Model,
    Refuted,
    Unchecked,
    Spent,
}

// What an answer says of a formula, and in how many steps; a derivation refutes where the checker accepts it.
fn said(alloc: Global, formula: &Formula, answer: &Answer) -> (Found, usize) {
    match answer {
        Answer::Sat(_) => (Found::Model, 0),
        Answer::Unsat(derivation) => {
            if check(alloc, formula, derivation).is_ok() {
                (Found::Refuted, derivation.steps.len())
            } else {
                (Found::Unchecked, 0)
            }
        }
        Answer::Spent(log) => (Found::Spent, log.steps.len()),
    }
}

// What is found, and in how many steps.
fn told(alloc: Global, formula: &Formula, budget: u64) -> Result<(Found, usize), AllocError> {
    if !formula.is_normal() {
        return Ok((Found::NotNormal, 0));
    }
    let answer = solve(alloc, formula, budget)?;
    Ok(said(alloc, formula, &answer))
}

// Decides a variable, if units alone meet no conflict.
fn decide_once(engine: &mut Engine) {
    if engine.propagate().is_none() {
        let _decision = engine.decide();
    }
}

// The level of what is learnt, how many literals and hints it has, and the number of its first hint.
fn counts(learnt: &Learnt) -> [usize; 4] {
    let hints = learnt.step.hints.as_slice();
    let first = hints.first().copied().unwrap_or(0);
    let literals = learnt.step.clause.as_slice().len();
    [learnt.level, literals, hints.len(), first as usize]
}

// What the engine learns from the conflict that units meet above the lowest level, if there is one, in numbers; the last is 0
// where units meet a conflict again.
fn learnt(alloc: Global, engine: &mut Engine) -> Result<[usize; 4], AllocError> {
    let conflict = engine.propagate();
    if engine.level() == 0 {
        return Ok([0; 4]);
    }
    let Some(place) = conflict else {
        return Ok([0; 4]);
    };
    let learnt = engine.learn(alloc, place)?;
    let [level, literals, hints, first] = counts(&learnt);
    if engine.propagate().is_some() {
        return Ok([level, literals, hints, 0]);
    }
    Ok([level, literals, hints, first])
}

// What is learnt after so many decisions.
fn decided_wrong(alloc: Global, engine: &mut Engine, times: u32) -> Result<[usize; 4], AllocError> {
    for _ in 0..times {
        decide_once(engine);
    }
    learnt(alloc, engine)
}

// How many levels are open.
fn level(engine: &Engine) -> usize {
    engine.level()
}

// Leaves the levels above this one.
fn leave(engine: &mut Engine, level: usize) {
    if level <= engine.level() {
        engine.backjump(level);
    }
}

// Decides a variable, if units alone meet no conflict: the one that is decided, else 0.
fn next_decided(engine: &mut Engine) -> usize {
    if engine.propagate().is_some() {
        return 0;
    }
    match engine.decide() {
        Some(l) => l.var() as usize,
        None => 0,
    }
}

// How many different variables are decided, of so many without clauses, at most so often.
fn decided(alloc: Global, engine: &mut Engine, vars: u32, times: u32) -> Result<usize, AllocError> {
    let mut seen = vec![in alloc; false; vars as usize + 1]?;
    let mut count = 0usize;
    for _ in 0..times {
        let var = next_decided(engine);
        if let Some(there) = seen.get_mut(var) {
            if var > 0 && !*there {
                *there = true;
                count = count.saturating_add(1);
            }
        }
    }
    Ok(count)
}

const BOTH_IN_ALL_SIGNS: &[&[i32]] = &[&[1, 2], &[1, -2], &[-1, 2], &[-1, -2]];

// Three pigeons in two holes: pigeon i is in hole j where variable 2 (i - 1) + j is true.
const THREE_PIGEONS: &[&[i32]] = &[
    &[1, 2],
    &[3, 4],
    &[5, 6],
    &[-1, -3],
    &[-1, -5],
    &[-3, -5],
    &[-2, -4],
    &[-2, -6],
    &[-4, -6],
];

// Four in three: variable 3 (i - 1) + j.
const FOUR_PIGEONS: &[&[i32]] = &[
    &[1, 2, 3],
    &[4, 5, 6],
    &[7, 8, 9],
    &[10, 11, 12],
    &[-1, -4],
    &[-1, -7],
    &[-1, -10],
    &[-4, -7],
    &[-4, -10],
    &[-7, -10],
    &[-2, -5],
    &[-2, -8],
    &[-2, -11],
    &[-5, -8],
    &[-5, -11],
    &[-8, -11],
    &[-3, -6],
    &[-3, -9],
    &[-3, -12],
    &[-6, -9],
    &[-6, -12],
    &[-9, -12],
];

// With a budget of steps, what is found, and in how many steps, where they are counted (else 0). Known by hand; pigeons never fit
// into fewer holes. One learnt clause is too little for four pigeons: with a pigeon in or out of a hole no clause is unit yet.
const CASES: &[(u32, &[&[i32]], u64, Found, usize)] = &[
    (0, &[], 1000, Found::Model, 0),
    (0, &[&[]], 1000, Found::Refuted, 0),
    (2, &[&[1, 2]], 1000, Found::Model, 0),
    (2, BOTH_IN_ALL_SIGNS, 1000, Found::Refuted, 0),
    (
        5,
        &[&[-1, 2], &[-2, 3], &[-3, 4], &[-4, 5], &[1]],
        1000,
        Found::Model,
        0,
    ),
    (2, &[&[1], &[-1]], 1000, Found::Refuted, 0),
    (6, THREE_PIGEONS, 1000, Found::Refuted, 0),
    (12, FOUR_PIGEONS, 1000, Found::Refuted, 0),
    (12, FOUR_PIGEONS, 1, Found::Spent, 1),
];

fn told_of(
    alloc: Global,
    vars: u32,
    clauses: &[&[i32]],
    budget: u64,
) -> Result<(Found, usize), AllocError> {
    let formula = formula(alloc, vars, clauses)?;
    told(alloc, &formula, budget)
}

#[test]
fn formulas_have_a_model_or_none(rt: HostRuntime) -> Result<(), AllocError> {
    for (place, (vars, clauses, budget, want, count)) in CASES.iter().enumerate() {
        let (what, steps) = told_of(rt.alloc(), *vars, clauses, *budget)?;
        sure(
            &rt,
            what == *want && (*count == 0 || steps == *count),
            place,
        );
    }
    Ok(())
}

// Each variable implies the next one; the clauses of the odd ones come first, then those of the
// even ones from the last back, so that a scan in either direction sets only a few literals.
const LAST: i32 = 1_000_000;

fn push_implication(alloc: Global, list: &mut ClauseTable, var: i32) -> Result<(), AllocError> {
    push_clause(alloc, list, &[var.wrapping_neg(), var.wrapping_add(1)])
}

// So many, from a variable on, by a step.
fn push_implications(
    alloc: Global,
    list: &mut ClauseTable,
    first: i32,
    step: i32,
    count: i32,
) -> Result<(), AllocError> {
    for k in 0..count {
        push_implication(alloc, list, first.wrapping_add(k.wrapping_mul(step)))?;
    }
    Ok(())
}

fn push_chain(alloc: Global, list: &mut ClauseTable) -> Result<(), AllocError> {
    push_implications(alloc, list, 1, 2, LAST / 2)?;
    push_implications(alloc, list, LAST - 2, -2, LAST / 2 - 1)?;
    push_clause(alloc, list, &[1])?;
    push_clause(alloc, list, &[-LAST])
}

fn chain(alloc: Global) -> Result<Formula, AllocError> {
    let mut clauses = ClauseTable::new(alloc);
    push_chain(alloc, &mut clauses)?;
    Ok(Formula {
        vars: 1_000_000,
        clauses,
    })
}

fn told_of_chain(alloc: Global) -> Result<(Found, usize), AllocError> {
    let formula = chain(alloc)?;
    told(alloc, &formula, 1)
}

// Units alone refute it, in one step.
#[test]
fn a_chain_of_a_million_is_refuted(rt: HostRuntime) -> Result<(), AllocError> {
    let (what, steps) = told_of_chain(rt.alloc())?;
    assert!(rt; what == Found::Refuted && steps == 1);
    Ok(())
}

// Variable 2 is false where 1 is, and with 3 false both values of 4 are wrong.
const ONE_IMPLIED: &[&[i32]] = &[&[1, -2], &[1, 2, 3, 4], &[1, 2, 3, -4]];

// How many of three variables are decided and how many levels that opens; then, once all levels but one are left, how many
// are decided anew in one go, and how many levels are open.
fn reopened(alloc: Global, engine: &mut Engine) -> Result<[usize; 4], AllocError> {
    let first = decided(alloc, engine, 3, 5)?;
    let opened = level(engine);
    leave(engine, 1);
    let again = decided(alloc, engine, 3, 1)?;
    Ok([first, opened, again, level(engine)])
}

/// What an engine does.
enum Task {
    /// Decides once more than there are variables, without clauses: how many different ones are decided.
    Decide(u32),
    /// Decides, leaves and decides anew.
    Reopen,
    /// Learns from the conflict that units meet after so many decisions.
    Learn(u32),
}

fn done_by(alloc: Global, engine: &mut Engine, task: &Task) -> Result<[usize; 4], AllocError> {
    match task {
        Task::Decide(vars) => {
            let count = decided(alloc, engine, *vars, vars.wrapping_add(1))?;
            Ok([count, 0, 0, 0])
        }
        Task::Reopen => reopened(alloc, engine),
        Task::Learn(times) => decided_wrong(alloc, engine, *times),
    }
}

// Of a formula that is not normal, no number is right.
fn done_with(alloc: Global, formula: &Formula, task: &Task) -> Result<[usize; 4], AllocError> {
    if !formula.is_normal() {
        return Ok([usize::MAX; 4]);
    }
    let mut engine = Engine::load(alloc, formula)?;
    done_by(alloc, &mut engine, task)
}

fn done(
    alloc: Global,
    vars: u32,
    clauses: &[&[i32]],
    task: &Task,
) -> Result<[usize; 4], AllocError> {
    let formula = formula(alloc, vars, clauses)?;
    done_with(alloc, &formula, task)
}

// Known by hand: a million variables without clauses are decided one by one, and a level that is left can be decided again.
// Any decision on two variables in all four signs is a conflict, from which its complement follows by the two clauses that have
// the complement, which is a conflict again. Of 1, 2 and 3, which are false together, 2 is left out, since 1 false makes it false:
// two literals are learnt, and the clause that makes 2 false is the first of three hints; then all clauses are true.
const TASKS: &[(u32, &[&[i32]], Task, [usize; 4])] = &[
    (
        1_000_000,
        &[],
        Task::Decide(1_000_000),
        [1_000_000, 0, 0, 0],
    ),
    (3, &[], Task::Reopen, [3, 3, 1, 2]),
    (2, BOTH_IN_ALL_SIGNS, Task::Learn(1), [0, 1, 2, 0]),
    (4, ONE_IMPLIED, Task::Learn(2), [1, 2, 3, 1]),
];

#[test]
fn an_engine_decides_and_learns_and_goes_back(rt: HostRuntime) -> Result<(), AllocError> {
    for (place, (vars, clauses, task, want)) in TASKS.iter().enumerate() {
        let got = done(rt.alloc(), *vars, clauses, task)?;
        sure(&rt, got == *want, place);
    }
    Ok(())
}
