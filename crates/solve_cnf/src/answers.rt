//! What is told of a formula.
ghost use Rattle.std.specs.Prelude.{◌≡◌, ◌≢◌, ◌<◌, ◌+◌, ◌^◌, ℕ, List, slice_index_or, false, IfOk, OnOk};
ghost use Rattle.std.specs.Io.KnownBytes.{Appends};
ghost use Rattle.proof_log.specs.Formulas.{IsFormula, IsModel, HasNoModel};
ghost use Rattle.proof_log.specs.Derivations.{Refutes};
ghost use Rattle.dimacs_text.specs.Texts.{IsHeaded};
ghost use Rattle.solve_cnf.specs.Answers as spec;

use dimacs_text::Headed;
use proof_log::{Derivation, Formula, Model};
use rup_check::{CheckFault, check};
use sat_solver::{Answer, Counts, solve_counted};
use std::alloc::{AllocError, Global};
use std::io;
use std::io::Write;

/// Solves the formula and tells the answer, in the form of the competitions, with what the search did
/// for it in lines of comment. A derivation is checked first. The status that goes with the answer is
/// the result. The variables above the greatest one in a clause are false in a model, and each literal
/// is written as it is made.
pub fn solved<W: Write>(
    alloc: Global,
    read: &Headed,
    budget: u64,
    out: &mut W,
) -> anyhow::Result<u8>
    requires { IsHeaded read.now }
    ensures tells { IfOk result (λ status. (text : List ℕ)
        × Appends (W.contents out.old) (W.contents out.new) text × spec.Tells (spec.whole read.now) budget text status) }
    ensures satisfiable { IfOk result (λ status. status ≡ 10 → (m : Model) × IsModel (spec.whole read.now) m) }
    ensures unsatisfiable { IfOk result (λ status. status ≡ 20 → HasNoModel (spec.whole read.now)) }
    ensures unknown { IfOk result (λ status. status ≢ 10 → status ≢ 20 → (status ≡ 0) × (budget < 3 ^ read.now.formula.vars)) }
{
    let solved = solve_counted(alloc, &read.formula, budget)?;
    if let Answer::Unsat(derivation) = &solved.answer {
        checked(alloc, &read.formula, derivation)?;
    }
    write_counts(out, solved.counts)?;
    write_answer(out, &solved.answer, read.vars as usize)?;
    Ok(status_of(&solved.answer))
}

/// Checks a derivation of the solver's, which is accepted unless memory is wanted.
fn checked(alloc: Global, formula: &Formula, derivation: &Derivation) -> Result<(), AllocError>
    requires { Refutes formula.now derivation.now }
    ensures { IfOk result (λ _. HasNoModel formula.now) }
{
    match check(alloc, formula, derivation) {
        Ok(()) => Ok(()),
        Err(CheckFault::Memory) => Err(AllocError),
        Err(_) => unreachable!(),
    }
}

fn write_counts<W: Write>(out: &mut W, counts: Counts) -> io::Result<()>
    ensures { OnOk result (Appends (W.contents out.old) (W.contents out.new) (spec.counts_text counts)) }
{
    let conflicts = counts.conflicts;
    let propagations = counts.propagations;
    write!(
        out,
        "c conflicts {conflicts}\nc propagations {propagations}\n"
    )
}

fn status_of(answer: &Answer) -> u8
    ensures { result ≡ spec.status_of answer.now }
{
    match answer {
        Answer::Sat(_) => 10,
        Answer::Unsat(_) => 20,
        Answer::Spent(_) => 0,
    }
}

/// Writes an answer, where a model is of so many variables.
fn write_answer<W: Write>(out: &mut W, answer: &Answer, vars: usize) -> io::Result<()>
    ensures { OnOk result (Appends (W.contents out.old) (W.contents out.new) (spec.answer_text (spec.widened vars answer.now))) }
{
    match answer {
        Answer::Sat(model) => write_model(out, model.values.as_slice(), vars),
        Answer::Unsat(derivation) => {
            let steps = derivation.steps.len();
            write_steps(out, steps.saturating_sub(1), steps, "UNSATISFIABLE")
        }
        Answer::Spent(log) => {
            let steps = log.steps.len();
            write_steps(out, steps, steps, "UNKNOWN")
        }
    }
}

fn write_model<W: Write>(out: &mut W, values: &[bool], vars: usize) -> io::Result<()>
    ensures { OnOk result (Appends (W.contents out.old) (W.contents out.new) (spec.model_text (spec.filled vars values.now))) }
{
    write!(out, "s SATISFIABLE\nv")?;
    write_literals(out, values, vars)?;
    write!(out, " 0\n")?;
    Ok(())
}

/// Writes the literals of the variables that have values, in order, and of so many in all.
fn write_literals<W: Write>(out: &mut W, values: &[bool], vars: usize) -> io::Result<()>
    ensures { OnOk result (Appends (W.contents out.old) (W.contents out.new) (spec.literals_text (spec.filled vars values.now))) }
{
    for place in 0..vars.max(values.len()) {
        write_literal(out, place, value_at(values, place))?;
    }
    Ok(())
}

/// The value at a place, which is false where none is there.
fn value_at(values: &[bool], place: usize) -> bool
    ensures { result ≡ slice_index_or values.now place false }
{
    values.get(place).copied().unwrap_or(false)
}

/// Writes a space and the literal of the variable at a place.
fn write_literal<W: Write>(out: &mut W, place: usize, value: bool) -> io::Result<()>
    requires { place + 1 < 2 ^ 64 }
    ensures { OnOk result (Appends (W.contents out.old) (W.contents out.new) (spec.literal_text place value)) }
{
    let sign = if value { " " } else { " -" };
    let var = place + 1;
    write!(out, "{sign}{var}")
}

fn write_steps<W: Write>(out: &mut W, learnt: usize, steps: usize, answer: &str) -> io::Result<()>
    ensures { OnOk result (Appends (W.contents out.old) (W.contents out.new) (spec.steps_text learnt steps answer.now)) }
{
    write!(
        out,
        "c clauses learnt {learnt}\nc steps {steps}\ns {answer}\n"
    )
}
