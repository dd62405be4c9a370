//! Formulas of small designs, beside their answers found by going through all runs.
ghost use Rattle.std.specs.Prelude.{◌<◌, ◌≤◌, ◌↔◌, IsTrue, IfOk, All, length};
ghost use Rattle.net_model.specs.Netlist.{IsSound};
ghost use Rattle.net_model.specs.Fits.{Fits};
ghost use Rattle.net_model.specs.Fits.{NamesRegs};
ghost use Rattle.cnf_encode.specs.Problems.{IsMadeFor};

use crate::plain_answers::{
    advance, is_broken, is_lawful, marked, models, number_of, run_of, stimulus_of,
};
use cnf_encode::{Prepared, Problem, formula, inv_formula};
use net_model::Phase::{Base, Step};
use net_model::PinRef::{GateIn as G, Net as N, OutPort as O, RegIn as R};
use net_model::{Claim, Cycle, Design, InvClause, Phase, Stimulus};
use net_samples::Ask::{
    Early, Either, Fails, Falls, From, Hazard, In, Keeps, Lag, Multi, Out, Rises, To, Via,
};
use net_samples::{
    Ask, BOTH, CELL, CHAIN, CLEAR, Case, FLIPS, FORK, GATES, KEEPS, LOOP, Lits, PORTS, Part, RESET,
    TWO, case_of, design,
};
use proof_log::{ClauseTable, Model};
use query_model::{Coding, Key};
use sdcv_base::Seq;
use std::alloc::{AllocError, Global};
use std::process::Abort;
use witness_replay::{Replay, replay};

fn names_regs(design: &Design, clause: &InvClause) -> bool
    ensures { IsTrue result ↔ NamesRegs design.now clause.now }
{
    clause
        .lits
        .as_slice()
        .iter()
        .all(|lit| lit.reg < design.regs.len())
}

fn all_name_regs(design: &Design, clauses: &[InvClause]) -> bool
    ensures { IsTrue result ↔ All (NamesRegs design.now) clauses.now }
{
    clauses.iter().all(|clause| names_regs(design, clause))
}

/// The formula of a query about a claim.
fn claim_problem(
    alloc: Global,
    design: &Prepared,
    claim: &Claim,
    phase: Phase,
    depth: usize,
    inv: &[InvClause],
) -> Result<Problem, AllocError>
    requires sound { IsSound design.now.design }
    requires fits { Fits design.now.design claim.now }
    requires names { All (NamesRegs design.now.design) inv.now }
    requires few { depth ≤ 64 }
    ensures { IfOk result (IsMadeFor design.now.design) }
{
    formula(alloc, design, claim, phase, depth, inv)
}

/// The formula of a query about the first clause.
fn first_problem(
    alloc: Global,
    design: &Prepared,
    inv: &[InvClause],
    phase: Phase,
    depth: usize,
) -> Result<Problem, AllocError>
    requires sound { IsSound design.now.design }
    requires some { 0 < length inv.now }
    requires names { All (NamesRegs design.now.design) inv.now }
    requires few { depth ≤ 64 }
    ensures { IfOk result (IsMadeFor design.now.design) }
{
    inv_formula(alloc, design, inv, 0, phase, depth)
}

/// The formula of a query about the claim, or else about the first clause, of a design that is prepared.
fn prepared_problem(
    rt: &impl Abort,
    alloc: Global,
    case: &Case,
    design: &Prepared,
    phase: Phase,
    depth: usize,
) -> Result<Problem, AllocError>
    requires sound { IsSound design.now.design }
    ensures { IfOk result (IsMadeFor design.now.design) }
{
    let (bare, clauses) = (design.bare(), case.clauses.as_slice());
    assert!(rt; depth <= 64);
    assert!(rt; all_name_regs(bare, clauses));
    if case.has_claim {
        assert!(rt; case.claim.fits(bare));
        return claim_problem(alloc, design, &case.claim, phase, depth, clauses);
    }
    assert!(rt; !clauses.is_empty());
    first_problem(alloc, design, clauses, phase, depth)
}

/// The same of a design in a coding.
pub fn problem_of(
    rt: &impl Abort,
    alloc: Global,
    case: &Case,
    coding: Coding,
    phase: Phase,
    depth: usize,
) -> Result<Problem, AllocError>
    requires sound { IsSound case.now.design }
    ensures { IfOk result (IsMadeFor case.now.design) }
{
    let prepared = Prepared::of(alloc, &case.design, coding)?;
    prepared_problem(rt, alloc, case, &prepared, phase, depth)
}

/// Each number is that of its key, and keys ascend.
fn check_numbers(rt: &impl Abort, problem: &Problem) {
    let mut last = 0_u32;
    for i in 0..2048_usize {
        let key = Key {
            cycle: i / 256,
            layer: i / 64 % 4,
            rail: i / 32 % 2,
            point: i % 32,
        };
        if let Some(number) = problem.frames.number(&key) {
            last = last.wrapping_add(1);
            assert_eq!(rt; number, last);
            assert_eq!(rt; problem.frames.key(number), Some(key));
        }
    }
    assert_eq!(rt; problem.frames.vars(), last);
    assert_eq!(rt; problem.frames.key(last.wrapping_add(1)), None);
}

/// A query's problem, and which runs its models give, by their numbers. `judge` is the design without resets, in which the
/// toggle asked about is the first of a base query. Clauses hold in the cycles below `kept`.
#[derive(Clone, Copy)]
struct Trial<'a> {
    case: &'a Case,
    judge: &'a Design,
    problem: &'a Problem,
    marks: &'a [bool],
    toggle: usize,
    kept: usize,
}

/// Whether the first toggle that violates the claim is the one asked about.
fn is_violated(rt: &impl Abort, alloc: Global, trial: Trial, stimulus: &Stimulus) -> bool
    requires judge { IsSound trial.judge.now }
{
    let claim = &trial.case.claim;
    assert!(rt; claim.fits(trial.judge));
    let found = replay(alloc, trial.judge, claim, stimulus);
    found.ok() == Some(Replay::Violated(trial.toggle))
}

/// Whether a lawful run answers the query, as it does exactly where it is the run of a model, with any bits where no key is
/// needed.
fn is_answer(
    rt: &impl Abort,
    alloc: Global,
    trial: Trial,
    stimulus: &Stimulus,
    run: &Seq<Cycle>,
) -> bool
    requires judge { IsSound trial.judge.now }
{
    let is_answer = if trial.case.has_claim {
        is_violated(rt, alloc, trial, stimulus)
    } else {
        is_broken(&trial.case.clauses, run)
    };
    let number = number_of(&trial.case.design, trial.problem, run);
    let is_marked = trial.marks.get(number) == Some(&true);
    assert_eq!(rt; is_marked, is_answer, "run {number}");
    is_answer
}

/// 1 where the bits are those of a run that answers the query, and else 0.
fn count_of(
    rt: &impl Abort,
    alloc: Global,
    trial: Trial,
    bits: &Seq<bool>,
) -> Result<usize, AllocError>
    requires sound { IsSound trial.case.now.design }
    requires judge { IsSound trial.judge.now }
{
    let design = &trial.case.design;
    let stimulus = stimulus_of(alloc, design, bits)?;
    let run = run_of(rt, alloc, design, &stimulus)?;
    let is_counted = is_lawful(trial.case, &run, trial.problem.live, trial.kept)
        && is_answer(rt, alloc, trial, &stimulus, &run);
    Ok(usize::from(is_counted))
}

/// How many runs answer the query.
fn answers(rt: &impl Abort, alloc: Global, trial: Trial) -> Result<usize, AllocError>
    requires sound { IsSound trial.case.now.design }
    requires judge { IsSound trial.judge.now }
{
    let design = &trial.case.design;
    let inputs = trial.problem.cycles.saturating_mul(design.inputs.len());
    let width = inputs.saturating_add(design.regs.len());
    let mut bits = Seq::filled(alloc, false, width)?;
    let mut count = 0_usize;
    for _ in 0..1 << 14 {
        count = count.saturating_add(count_of(rt, alloc, trial, &bits)?);
        if !advance(&mut bits, width) {
            return Ok(count);
        }
    }
    assert!(rt; false, "too many runs");
    Ok(count)
}

/// A design, a query about it, its phase, depth and cycles, and how many runs another program finds to answer it.
struct Row(&'static [Part], &'static [Ask], Phase, usize, usize, usize);

/// The design without resets, in which the toggle at the depth is the first that a base query has.
fn judge_of(rt: &impl Abort, alloc: Global, row: &Row) -> Result<Design, AllocError>
    ensures { IfOk result IsSound }
{
    let Row(parts, _, phase, depth, _, _) = *row;
    let mut judge = design(alloc, parts)?;
    judge.resets = Seq::new(alloc);
    judge.reset_len = match phase {
        Base => judge.reset_len.saturating_add(depth),
        Step => 0,
    };
    assert!(rt; judge.check(alloc).is_ok());
    Ok(judge)
}

/// The first live cycle, and the first in which the clauses need not hold.
fn span_of(row: &Row, case: &Case) -> (usize, usize) {
    let Row(_, _, phase, depth, cycles, _) = *row;
    match phase {
        Base => (case.design.reset_len, 0),
        Step => (0, if case.has_claim { cycles } else { depth }),
    }
}

/// How many runs answer the query of a row, of which these are the case and the problem.
fn count_answers(
    rt: &impl Abort,
    alloc: Global,
    row: &Row,
    case: &Case,
    problem: &Problem,
) -> Result<usize, AllocError>
    requires sound { IsSound case.now.design }
    requires made { IsMadeFor case.now.design problem.now }
{
    let (live, kept) = span_of(row, case);
    assert_eq!(rt; problem.live, live);
    assert_eq!(rt; problem.cycles, row.4);
    let judge = judge_of(rt, alloc, row)?;
    let marks = marked(rt, alloc, &case.design, problem)?;
    let trial = Trial {
        case,
        judge: &judge,
        problem,
        marks: marks.as_slice(),
        toggle: live.saturating_add(row.3).saturating_add(1),
        kept,
    };
    answers(rt, alloc, trial)
}

/// The case of a design, which is sound.
pub fn sound_case(
    rt: &impl Abort,
    alloc: Global,
    parts: &[Part],
    query: &[Ask],
) -> Result<Case, AllocError>
    ensures { IfOk result (λ case. IsSound case.design) }
{
    let case = case_of(alloc, parts, query)?;
    assert!(rt; case.design.check(alloc).is_ok());
    Ok(case)
}

/// How many runs answer the query of a row, of which this is the case, by its formula in a coding.
fn count_coded(
    rt: &impl Abort,
    alloc: Global,
    row: &Row,
    case: &Case,
    coding: Coding,
) -> Result<usize, AllocError>
    requires sound { IsSound case.now.design }
{
    let problem = problem_of(rt, alloc, case, coding, row.2, row.3)?;
    check_numbers(rt, &problem);
    count_answers(rt, alloc, row, case, &problem)
}

/// The same, as many in either coding.
fn count_case(rt: &impl Abort, alloc: Global, row: &Row, case: &Case) -> Result<usize, AllocError>
    requires sound { IsSound case.now.design }
{
    let count = count_coded(rt, alloc, row, case, Coding::Rows)?;
    assert_eq!(rt; count_coded(rt, alloc, row, case, Coding::Primes)?, count);
    Ok(count)
}

/// How many runs answer the query of a row, after a check that just these are the runs of models.
fn count_row(rt: &impl Abort, alloc: Global, row: &Row) -> Result<usize, AllocError> {
    let case = sound_case(rt, alloc, row.0, row.1)?;
    count_case(rt, alloc, row, &case)
}

const LOW_0: Lits = &[(0, false)];

const LOW_1: Lits = &[(1, false)];

const IMPLIED: Lits = &[(0, true), (1, false)];

const NAND: Lits = &[(0, false), (1, false)];

// Pins of through sets are N(net), G(gate, place), R(register, place) and O(output).
const SMALL: &[Row] = &[
    Row(TWO, &[], Step, 1, 3, 8),
    Row(TWO, &[From(1), To(0)], Step, 0, 2, 0),
    Row(TWO, &[Multi(2), Keeps(IMPLIED)], Step, 1, 3, 2),
    Row(TWO, &[Fails(LOW_1), Keeps(LOW_0)], Step, 1, 2, 0),
    Row(TWO, &[Fails(IMPLIED)], Step, 2, 3, 6),
    Row(RESET, &[], Base, 0, 3, 16),
    Row(RESET, &[From(1), To(0), Multi(2)], Base, 1, 4, 16),
    Row(RESET, &[Fails(LOW_1)], Base, 1, 3, 0),
    Row(RESET, &[Fails(LOW_1)], Base, 2, 4, 32),
    Row(PORTS, &[In(0), Out(0), Via(O(0))], Base, 1, 3, 16),
    Row(BOTH, &[], Step, 0, 2, 0),
    Row(BOTH, &[Via(N(2))], Step, 0, 2, 4),
    Row(CLEAR, &[], Step, 0, 2, 32),
];

const LARGER: &[Row] = &[
    Row(KEEPS, &[Multi(3), Via(N(2))], Step, 0, 3, 60),
    Row(FLIPS, &[To(0), Multi(3), Via(R(0, 1))], Step, 0, 3, 6),
    Row(GATES, &[], Step, 0, 2, 0),
    Row(FORK, &[Via(N(3)), Either(N(3), G(1, 0))], Step, 0, 2, 16),
    Row(FORK, &[Via(N(4)), Via(G(1, 1))], Step, 0, 2, 0),
    Row(LOOP, &[Multi(3), Via(R(1, 1))], Step, 0, 3, 40),
    Row(CHAIN, &[In(0), Out(0), Multi(2)], Base, 1, 4, 24),
    Row(CHAIN, &[Multi(2), Via(G(1, 0))], Base, 1, 4, 8),
    Row(CHAIN, &[Fails(LOW_1)], Base, 0, 2, 0),
];

const HAZARDS: &[Row] = &[
    Row(PORTS, &[In(0), Out(0), Hazard], Step, 1, 3, 12),
    Row(BOTH, &[Hazard], Step, 0, 2, 8),
    Row(KEEPS, &[Multi(2), Hazard, Keeps(IMPLIED)], Step, 0, 2, 6),
    Row(GATES, &[Hazard], Step, 0, 2, 16),
    Row(CELL, &[Hazard], Step, 0, 2, 0),
    Row(FORK, &[Via(N(2)), Via(G(1, 1)), Hazard], Step, 0, 2, 32),
    Row(LOOP, &[Hazard, Via(R(1, 0)), Keeps(NAND)], Step, 0, 2, 10),
    Row(LOOP, &[Hazard, Via(G(1, 1)), Via(R(1, 0))], Step, 1, 3, 32),
    Row(CHAIN, &[Hazard, Either(N(4), G(1, 0))], Step, 1, 3, 6),
];

const EDGES: &[Row] = &[
    Row(TWO, &[Rises], Step, 1, 3, 8),
    Row(TWO, &[Falls, Lag(2)], Step, 1, 5, 32),
    Row(RESET, &[Falls], Base, 0, 3, 0),
    Row(RESET, &[Falls, Lag(1)], Base, 1, 5, 32),
    Row(PORTS, &[In(0), Out(0), Falls, Lag(1)], Step, 0, 3, 10),
    Row(FLIPS, &[To(0), Rises, Lag(1)], Step, 0, 3, 4),
    Row(KEEPS, &[Falls, Lag(1), Keeps(IMPLIED)], Step, 0, 3, 10),
    Row(KEEPS, &[Multi(3), Rises, Via(N(2))], Step, 0, 3, 30),
    Row(FORK, &[Rises, Lag(1)], Step, 0, 3, 40),
    Row(GATES, &[Hazard, Falls, Lag(1)], Step, 0, 3, 48),
    Row(CHAIN, &[In(0), Out(0), Multi(2), Falls], Base, 1, 4, 8),
];

const EARLY: &[Row] = &[
    Row(TWO, &[Early], Step, 1, 3, 8),
    Row(RESET, &[Early, Falls], Base, 1, 4, 16),
    Row(KEEPS, &[Early, Keeps(IMPLIED)], Step, 1, 3, 12),
    Row(FORK, &[Early, Via(N(4))], Step, 0, 2, 16),
    Row(GATES, &[Early, Hazard], Step, 0, 2, 16),
    Row(CHAIN, &[In(0), Out(0), Early], Base, 1, 4, 16),
    Row(
        CHAIN,
        &[Early, Hazard, Either(N(4), G(1, 0))],
        Step,
        1,
        3,
        8,
    ),
];

fn check_rows(rt: &impl Abort, alloc: Global, rows: &[Row]) -> Result<(), AllocError> {
    for (place, row) in rows.iter().enumerate() {
        let found = count_row(rt, alloc, row)?;
        assert_eq!(rt; found, row.5, "row {place}");
    }
    Ok(())
}

#[test]
fn models_are_the_answers_of_small_designs(rt: HostRuntime) -> Result<(), AllocError> {
    check_rows(&rt, rt.alloc(), SMALL)
}

#[test]
fn models_are_the_answers_of_larger_designs(rt: HostRuntime) -> Result<(), AllocError> {
    check_rows(&rt, rt.alloc(), LARGER)
}

#[test]
fn models_are_the_answers_where_hazards_count(rt: HostRuntime) -> Result<(), AllocError> {
    check_rows(&rt, rt.alloc(), HAZARDS)
}

#[test]
fn models_are_the_answers_of_edges_and_lags(rt: HostRuntime) -> Result<(), AllocError> {
    check_rows(&rt, rt.alloc(), EDGES)
}

#[test]
fn models_are_the_answers_of_early_claims(rt: HostRuntime) -> Result<(), AllocError> {
    check_rows(&rt, rt.alloc(), EARLY)
}

fn push_keys(text: &mut String, problem: &Problem) -> Result<(), AllocError> {
    for var in 1..=problem.frames.vars() {
        if let Some(key) = problem.frames.key(var) {
            let (cycle, layer, rail, point) = (key.cycle, key.layer, key.rail, key.point);
            write!(text, " {cycle}.{layer}.{rail}.{point}")?;
        }
    }
    Ok(())
}

fn push_clauses(text: &mut String, clauses: &ClauseTable) -> Result<(), AllocError> {
    for place in 0..clauses.len() {
        for lit in clauses.clause(place) {
            text.push_str(if lit.positive() { " " } else { " -" })?;
            write!(text, "{}", lit.var())?;
        }
        text.push_str(",")?;
    }
    Ok(())
}

fn push_models(text: &mut String, models: &Seq<Model>) -> Result<(), AllocError> {
    for model in models.as_slice() {
        text.push_str(" ")?;
        for bit in model.values.as_slice() {
            text.push_str(if *bit { "1" } else { "0" })?;
        }
    }
    Ok(())
}

/// The keys, clauses and models of a problem.
fn push_problem(
    rt: &impl Abort,
    alloc: Global,
    text: &mut String,
    problem: &Problem,
) -> Result<(), AllocError> {
    push_keys(text, problem)?;
    push_clauses(text, &problem.formula.clauses)?;
    push_models(text, &models(rt, alloc, &problem.formula)?)
}

/// A query about a false path between two flops, the clauses of its toggle, and its models.
struct Told(&'static [Ask], &'static str, &'static str);

// Worked out by hand: the keys, each a cycle, layer, rail and point, and the clauses before and after those of the toggle.
const KEYS: &str = "0.0.0.0 0.0.0.3 1.0.0.3 1.0.0.5 1.0.0.7 1.0.0.25 1.1.0.5 2.0.0.4";

const BEFORE: &str = "1 -3, -1 3, 3 -8, -3 8, -3 -7, 3 7,";

const AFTER: &str = "-5 7 8, -5 -7 -8, 5 -7 8, 5 7 -8, 4, 6, 5 -6,";

const TOLD: &[Told] = &[
    Told(
        &[],
        "2 3 -4, -2 -3 -4, 2 -3 4, -2 3 4,",
        "01011110 10111101",
    ),
    Told(&[Rises], "3 -4, -2 -4, 2 -3 4,", "10111101"),
    Told(&[Falls], "-3 -4, 2 -4, -2 3 4,", "01011110"),
];

fn told_problem(rt: &impl Abort, alloc: Global, row: &Told) -> Result<Problem, AllocError> {
    let case = sound_case(rt, alloc, TWO, row.0)?;
    problem_of(rt, alloc, &case, Coding::Rows, Step, 0)
}

/// The keys, clauses and models of the problem of a row.
fn found_text(rt: &impl Abort, alloc: Global, row: &Told) -> Result<String, AllocError> {
    let problem = told_problem(rt, alloc, row)?;
    let mut text = String::new(alloc);
    push_problem(rt, alloc, &mut text, &problem)?;
    Ok(text)
}

fn told_text(alloc: Global, row: &Told) -> Result<String, AllocError> {
    let Told(_, toggle, models) = row;
    format!(in alloc; " {KEYS} {BEFORE} {toggle} {AFTER} {models}")
}

#[test]
fn the_formula_of_two_flops(rt: HostRuntime) -> Result<(), AllocError> {
    for row in TOLD {
        let found = found_text(&rt, rt.alloc(), row)?;
        let told = told_text(rt.alloc(), row)?;
        assert!(rt; found.as_str() == told.as_str());
    }
    Ok(())
}
