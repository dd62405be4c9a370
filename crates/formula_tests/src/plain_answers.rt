//! The assignments of a formula and the runs of a small design one by one, and what they answer.
ghost use Rattle.std.specs.Prelude.{◌≡◌, ◌≤◌, ◌↔◌, IsTrue, IfOk, All, true};
ghost use Rattle.net_model.specs.Netlist.{IsSound};
ghost use Rattle.net_model.specs.Cycles.{IsSettled};
ghost use Rattle.proof_log.specs.Literals.{lit_true};
ghost use Rattle.proof_log.specs.Clauses.{clause_true};
ghost use Rattle.proof_log.specs.Formulas.{value_in, IsModel};
ghost use Rattle.cnf_encode.specs.Problems.{IsMadeFor};

use cnf_encode::{Problem, read_back};
use net_model::{Cycle, Design, InvClause, Stimulus};
use net_samples::Case;
use net_sim::{settle, step};
use proof_log::{Formula, Lit, Model};
use query_model::Key;
use sdcv_base::Seq;
use std::alloc::{AllocError, Global};
use std::process::Abort;

fn value_of(model: &Model, var: u32) -> bool
    requires { 1 ≤ var }
    ensures { result ≡ value_in model.now.values var }
{
    let place = var as usize - 1;
    model.values.as_slice().get(place).copied().unwrap_or(false)
}

#[tactic(auto, unfolding(proof_log::specs::Literals::lit_true))]
fn is_one(model: &Model, lit: Lit) -> bool
    ensures { result ≡ lit_true (value_in model.now.values) lit }
{
    let value = value_of(model, lit.var());
    if lit.positive() { value } else { !value }
}

fn is_true(model: &Model, clause: &[Lit]) -> bool
    ensures { result ≡ clause_true (value_in model.now.values) clause.now }
{
    clause.iter().any(|lit| is_one(model, *lit))
}

fn are_true(formula: &Formula, model: &Model) -> bool
    ensures { IsTrue result ↔ All (λ c. clause_true (value_in model.now.values) c ≡ true) formula.now.clauses }
{
    for place in 0..formula.clauses.len() {
        if !is_true(model, formula.clauses.clause(place)) {
            return false;
        }
    }
    true
}

fn is_model(formula: &Formula, model: &Model) -> bool
    ensures { IsTrue result → IsModel formula.now model.now }
{
    model.values.len() == formula.vars as usize && are_true(formula, model)
}

/// Bits read as a binary number become the next one that differs in the first `count` bits.
pub fn advance(bits: &mut Seq<bool>, count: usize) -> bool {
    for place in (0..bits.len()).rev() {
        if place < bits.len() {
            let is_next = place < count && !bits.at(place);
            bits.put(place, is_next);
            if is_next {
                return true;
            }
        }
    }
    false
}

/// Up to which variable the next assignment is to differ. Where there are many, those are passed over that differ in later
/// ones than a false clause has.
fn place_to_change(formula: &Formula, model: &Model) -> usize {
    if formula.vars > 16 {
        for place in 0..formula.clauses.len() {
            let clause = formula.clauses.clause(place);
            if let [.., last] = clause {
                if !is_true(model, clause) {
                    return last.var() as usize;
                }
            }
        }
    }
    model.values.len()
}

/// All models. Each assignment of at most 16 variables is tried.
pub fn models(rt: &impl Abort, alloc: Global, formula: &Formula) -> Result<Seq<Model>, AllocError> {
    let mut found = Seq::new(alloc);
    let values = Seq::filled(alloc, false, formula.vars as usize)?;
    let mut model = Model { values };
    for _ in 0..1 << 16 {
        if are_true(formula, &model) {
            let values = model.values.copy(alloc)?;
            found.push(Model { values })?;
        }
        let place = place_to_change(formula, &model);
        if !advance(&mut model.values, place) {
            return Ok(found);
        }
    }
    assert!(rt; false, "too many assignments");
    Ok(found)
}

/// The bit of a key, if it is a register's first bit or an input's bit.
fn free_bit(design: &Design, run: &Seq<Cycle>, key: &Key) -> Option<bool> {
    let cycle = run.as_slice().get(key.cycle)?;
    if key.layer > 0 {
        return None;
    }
    if design.inputs.as_slice().contains(&key.point) {
        return cycle.nets.as_slice().get(key.point).copied();
    }
    if key.cycle > 0 {
        return None;
    }
    let reg = key.point.checked_sub(design.nets)?;
    cycle.bits.as_slice().get(reg).copied()
}

/// A number for a run: first bits of registers and bits of inputs that have a key are its binary digits.
pub fn number_of(design: &Design, problem: &Problem, run: &Seq<Cycle>) -> usize {
    let mut number = 0_usize;
    for var in 1..=problem.frames.vars() {
        if let Some(key) = problem.frames.key(var) {
            if let Some(bit) = free_bit(design, run, &key) {
                number = number.wrapping_mul(2) | usize::from(bit);
            }
        }
    }
    number
}

/// The numbers of the runs that are read back from models of the problem's clauses, as marks.
pub fn marked(
    rt: &impl Abort,
    alloc: Global,
    design: &Design,
    problem: &Problem,
) -> Result<Vec<bool>, AllocError>
    requires sound { IsSound design.now }
    requires made { IsMadeFor design.now problem.now }
{
    let formula = &problem.formula;
    let mut marks = vec![in alloc; false; 1 << 14]?;
    for model in models(rt, alloc, formula)?.as_slice() {
        assert!(rt; is_model(formula, model));
        let run = read_back(alloc, design, problem, model)?;
        if let Some(mark) = marks.get_mut(number_of(design, problem, &run)) {
            *mark = true;
        }
    }
    Ok(marks)
}

/// The stimulus of these bits: the registers' first, and then those of the inputs, cycle by cycle.
pub fn stimulus_of(
    alloc: Global,
    design: &Design,
    bits: &Seq<bool>,
) -> Result<Stimulus, AllocError> {
    let mut inputs = Seq::new(alloc);
    let (state, rest) = bits
        .as_slice()
        .split_at_checked(design.regs.len())
        .unwrap_or((&[], &[]));
    for row in rest.chunks(design.inputs.len().max(1)) {
        inputs.push(Seq::of(alloc, row)?)?;
    }
    let state = Seq::of(alloc, state)?;
    Ok(Stimulus { state, inputs })
}

/// The settled cycle of these register and input bits.
fn settled(
    rt: &impl Abort,
    alloc: Global,
    design: &Design,
    bits: Seq<bool>,
    ins: Seq<bool>,
) -> Result<Cycle, AllocError>
    requires sound { IsSound design.now }
    ensures { IfOk result (IsSettled design.now) }
{
    let mut cycle = Cycle::blank(alloc, design)?;
    assert_eq!(rt; bits.len(), design.regs.len());
    assert_eq!(rt; ins.len(), design.inputs.len());
    cycle.bits = bits;
    cycle.ins = ins;
    settle(design, &mut cycle);
    Ok(cycle)
}

/// The cycles of a stimulus, in order.
pub fn run_of(
    rt: &impl Abort,
    alloc: Global,
    design: &Design,
    stimulus: &Stimulus,
) -> Result<Seq<Cycle>, AllocError>
    requires sound { IsSound design.now }
{
    let mut run = Seq::new(alloc);
    let mut bits = stimulus.state.copy(alloc)?;
    for ins in stimulus.inputs.as_slice() {
        let cycle = settled(rt, alloc, design, bits, ins.copy(alloc)?)?;
        let mut next = Cycle::blank(alloc, design)?;
        step(design, &cycle, &mut next);
        bits = next.bits.copy(alloc)?;
        run.push(cycle)?;
    }
    Ok(run)
}

fn has_resets(design: &Design, cycle: &Cycle, active: bool) -> bool {
    let ins = cycle.ins.as_slice();
    let is_fixed = design
        .fixed
        .as_slice()
        .iter()
        .all(|f| ins.get(f.input) == Some(&f.value));
    is_fixed
        && design
            .resets
            .as_slice()
            .iter()
            .all(|r| ins.get(r.input) == Some(&(r.value == active)))
}

fn meets(cycle: &Cycle, clause: &InvClause) -> bool {
    clause.lits.as_slice().iter().any(|lit| cycle.bits.as_slice().get(lit.reg) == Some(&lit.value))
}

/// Whether inputs are as the design gives them, with resets in the cycles below `live`, and the clauses hold in those
/// below `kept`.
pub fn is_lawful(case: &Case, run: &Seq<Cycle>, live: usize, kept: usize) -> bool {
    let clauses = case.clauses.as_slice();
    run.as_slice().iter().enumerate().all(|(t, cycle)| {
        has_resets(&case.design, cycle, t < live)
            && (t >= kept || clauses.iter().all(|clause| meets(cycle, clause)))
    })
}

/// Whether the first clause fails in the last cycle.
pub fn is_broken(clauses: &Seq<InvClause>, run: &Seq<Cycle>) -> bool {
    match (clauses.as_slice().first(), run.as_slice().last()) {
        (Some(clause), Some(cycle)) => !meets(cycle, clause),
        _ => false,
    }
}
