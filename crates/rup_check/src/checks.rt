//! The check, step by step and hint by hint.
ghost use Rattle.std.specs.Prelude.{◌≡◌, ◌≢◌, ◌↔◌, ◌+◌, ℕ, length, IsTrue, IsOk, IfErr, MatchResult, Some, None};
ghost use Rattle.proof_log.specs.Derivations.{known_clauses, EndsEmpty, Refutes};
ghost use Rattle.proof_log.specs.Formulas.{HasNoModel};
ghost use Rattle.rup_check.specs.Faults.{hints_fault, fault_after_false, step_fault, IsFirstFault};

use crate::faults::CheckFault;
use crate::known::clause_at;
use crate::step_sets::StepSet;
use proof_log::{ClauseTable, DerivStep, Derivation, Effect, Formula, LitSet};
use std::alloc::Global;

/// Whether the derivation refutes the formula: each step follows by its hints, and the last clause
/// is empty. Nothing is asked of the clauses: they may have any form and name any variables.
///
/// The work is linear in the literals of the clauses that the hints name, as far as they are of the
/// formula's variables.
pub fn check(alloc: Global, formula: &Formula, derivation: &Derivation) -> Result<(), CheckFault>
    ensures refutes { IsOk result → Refutes formula.now derivation.now }
    ensures no_model { IsOk result → HasNoModel formula.now }

    // Only want of memory is free: each other fault is the first one, so the derivation is refused.
    ensures fault { IfErr result (λ e. e ≢ CheckFault.Memory → IsFirstFault formula.now derivation.now e) }
    ensures refused { IfErr result (λ e. e ≢ CheckFault.Memory → ¬ Refutes formula.now derivation.now) }
{
    let steps = derivation.steps.as_slice();
    let mut set = StepSet::new(alloc, formula.vars.min(MOST_VARS))?;
    for (at, step) in steps.iter().enumerate() {
        check_step(&mut set, &formula.clauses, &steps[..at], step, at + 1)?;
    }
    if ends_empty(steps) {
        Ok(())
    } else {
        Err(CheckFault::NotEmpty)
    }
}

/// The greatest variable that a literal can have.
const MOST_VARS: u32 = 2147483647;

/// Whether the last step's clause is empty.
fn ends_empty(steps: &[DerivStep]) -> bool
    ensures { IsTrue result ↔ EndsEmpty steps.now }
{
    match steps.last() {
        None => false,
        Some(step) => step.clause.as_slice().is_empty(),
    }
}

/// Whether the step's hints lead from the negation of its clause to a conflict.
fn check_step(
    set: &mut StepSet,
    formula: &ClauseTable,
    earlier: &[DerivStep],
    step: &DerivStep,
    number: usize,
) -> Result<(), CheckFault>
    ensures { MatchResult result
        (λ _. step_fault formula.now earlier.now step.now number ≡ None)
        (λ e. e ≢ CheckFault.Memory → step_fault formula.now earlier.now step.now number ≡ Some e) }
{
    set.negate(step.clause.as_slice())?;
    check_hints(set, formula, earlier, step.hints.as_slice(), number)
}

/// Whether the hints lead from the set literals to a conflict.
fn check_hints(
    set: &mut StepSet,
    formula: &ClauseTable,
    earlier: &[DerivStep],
    hints: &[u64],
    number: usize,
) -> Result<(), CheckFault>
    ensures { MatchResult result
        (λ _. hints_fault (known_clauses formula.now earlier.now) number set.old hints.now 1 ≡ None)
        (λ e. e ≢ CheckFault.Memory
        → hints_fault (known_clauses formula.now earlier.now) number set.old hints.now 1 ≡ Some e) }
{
    for (i, hint) in hints.iter().enumerate() {
        let Some(clause) = clause_at(formula, earlier, *hint) else {
            return Err(CheckFault::HintMissing(number));
        };
        match set.effect(clause) {
            Effect::Falsified => {
                return nothing_after(formula, earlier, &hints[i + 1..], number, i + 2);
            }
            Effect::Sets(u) => set.set(u)?,
            Effect::Neither => return Err(CheckFault::HintNotUnit(number, i + 1)),
        }
    }
    Err(CheckFault::NoConflict(number))
}

/// Whether no hint stands after a false one.
fn nothing_after(
    formula: &ClauseTable,
    earlier: &[DerivStep],
    rest: &[u64],
    number: usize,
    place: usize,
) -> Result<(), CheckFault>
    ensures { MatchResult result
        (λ _. fault_after_false (known_clauses formula.now earlier.now) number rest.now place ≡ None)
        (λ e. fault_after_false (known_clauses formula.now earlier.now) number rest.now place ≡ Some e) }
{
    let Some(hint) = rest.first() else {
        return Ok(());
    };
    match clause_at(formula, earlier, *hint) {
        None => Err(CheckFault::HintMissing(number)),
        Some(_) => Err(CheckFault::HintNotUnit(number, place)),
    }
}
