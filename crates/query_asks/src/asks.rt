//! One query, and what the solver finds of it.
ghost use Rattle.std.specs.Prelude.{◌≡◌, ◌≤◌, ◌<◌, All, IfOk, Some, length, slice_get};
ghost use Rattle.net_model.specs.Netlist.{IsSound};
ghost use Rattle.net_model.specs.Fits.{Fits};
ghost use Rattle.net_model.specs.Queries.{claim_query, clause_query};
ghost use Rattle.net_model.specs.declared.invariants.InvClause.{InvClause as Clause};
ghost use Rattle.net_model.specs.Fits.{NamesRegs};
ghost use Rattle.proof_log.specs.Formulas.{IsFormula};
ghost use Rattle.cnf_encode.specs.Problems.{IsMadeFor};
ghost use Rattle.query_asks.specs.Asks.{IsRightOf, IsRightFor};

use crate::found::Found;
use crate::prepared_designs::Prepared;
use cnf_encode::{Problem, formula, inv_formula};
use net_model::{Claim, InvClause, Phase};
use proof_log::Derivation;
use sat_solver::{Answer, solve};
use std::alloc::{AllocError, Global};

/// Which query is asked, and how many clauses may be learnt for it.
#[derive(Debug, Clone, Copy, PartialEq, Eq)]
pub struct Probe {
    pub phase: Phase,
    pub depth: usize,
    pub budget: u64,
}

/// What the solver finds of a query.
#[derive(Drop)]
pub enum Asked {
    /// No run answers it: the derivation refutes its formula.
    Refuted(Derivation),
    /// A run or a stretch answers it: the model that it is read back from.
    Answered(Found),
    /// The log spends the budget.
    Spent(Derivation),
}

/// Asks whether a claim is violated at a depth: in the base phase in a run from reset, in the step phase in a stretch whose
/// cycles meet the kept clauses and in which it is violated at no smaller offset.
pub fn ask_claim(
    alloc: Global,
    design: &Prepared,
    claim: &Claim,
    kept: &[InvClause],
    probe: Probe,
) -> Result<Asked, AllocError>
    requires sound { IsSound design.now }
    requires fits { Fits design.now claim.now }
    requires names { All (NamesRegs design.now) kept.now }
    requires few { probe.depth ≤ 64 }
    ensures { IfOk result (IsRightOf (claim_query design.now claim.now probe.phase probe.depth kept.now) probe.budget) }
{
    let coded = design.coded();
    let problem = formula(alloc, coded, claim, probe.phase, probe.depth, kept)?;
    answer_of(alloc, problem, probe.budget)
}

/// Asks whether the clause at a place of `inv` fails in the live cycle of a depth, counted from 0: in the base phase in a
/// run from reset, in the step phase in a stretch whose cycles before meet all of `inv`.
pub fn ask_clause(
    alloc: Global,
    design: &Prepared,
    inv: &[InvClause],
    place: usize,
    probe: Probe,
) -> Result<Asked, AllocError>
    requires sound { IsSound design.now }
    requires names { All (NamesRegs design.now) inv.now }
    requires place { place < length inv.now }
    requires few { probe.depth ≤ 64 }
    ensures { IfOk result (λ a. (clause : Clause) → slice_get inv.now place ≡ Some clause
        → IsRightOf (clause_query design.now inv.now clause probe.phase probe.depth) probe.budget a) }
{
    let coded = design.coded();
    let problem = inv_formula(alloc, coded, inv, place, probe.phase, probe.depth)?;
    answer_of(alloc, problem, probe.budget)
}

/// What the solver finds of a query's clauses.
fn answer_of(alloc: Global, problem: Problem, budget: u64) -> Result<Asked, AllocError>
    requires { IsFormula problem.formula }
    ensures { IfOk result (IsRightFor problem budget) }
{
    match solve(alloc, &problem.formula, budget)? {
        Answer::Sat(model) => Ok(Asked::Answered(Found { problem, model })),
        Answer::Unsat(derivation) => {
            // It has as many steps as a slice, so fewer than 2^63.
            let _steps = derivation.steps.as_slice();
            Ok(Asked::Refuted(derivation))
        }
        Answer::Spent(log) => Ok(Asked::Spent(log)),
    }
}
