//! The formulas of queries.
ghost use Rattle.std.specs.Prelude.{◌≡◌, ◌≤◌, ◌<◌, ◌^◌, length, All, IfOk, OnOk};
ghost use Rattle.net_model.specs.Netlist.{IsSound};
ghost use Rattle.net_model.specs.Fits.{Fits};
ghost use Rattle.net_model.specs.Queries.{claim_query, clause_query};
ghost use Rattle.net_model.specs.Fits.{NamesRegs};
ghost use Rattle.proof_log.specs.Formulas.{IsFormula};
ghost use Rattle.frame_unroll.specs.Framed.{AtPlace};
ghost use Rattle.cnf_encode.specs.Coded.{HasKeys, Adds};
ghost use Rattle.cnf_encode.specs.Late.{IsLateStart};
ghost use Rattle.cnf_encode.specs.Problems.{IsProblemFor, IsCompleteFor};

use crate::claims::{list_claim_cycles, list_clause_cycles};
use crate::clauses::push_clause;
use crate::cones::Cone;
use crate::late_starts::LateStart;
use crate::prepared_designs::Prepared;
use crate::problems::Problem;
use frame_unroll::{Frames, Span, claim_asked, claim_span, clause_asked, clause_span};
use net_model::{Claim, InvClause, Phase};
use proof_log::{ClauseTable, Formula};
use query_model::KeyLit;
use sdcv_base::Seq;
use std::alloc::{AllocError, Global};

/// Adds the clauses that a query asks.
fn push_asked(
    alloc: Global,
    frames: &Frames,
    asked: &Seq<Seq<KeyLit>>,
    clauses: &mut ClauseTable,
) -> Result<(), AllocError>
    requires keys { HasKeys frames.now asked.now }
    ensures { OnOk result (Adds frames.now asked.now clauses.old clauses.new) }
{
    for k in 0..asked.len() {
        push_clause(alloc, frames, asked.item(k).as_slice(), clauses)?;
    }
    Ok(())
}

/// The problem of these clauses over the keys.
fn problem_of(frames: Frames, span: Span, clauses: ClauseTable) -> Problem
    ensures frames { result.frames ≡ frames }
    ensures vars { result.formula.vars ≡ length frames }
    ensures clauses { result.formula.clauses ≡ clauses }
    ensures live { result.live ≡ span.live }
    ensures cycles { result.cycles ≡ span.cycles }
    ensures few { length frames < 2 ^ 31 }
{
    let vars = frames.vars();
    Problem {
        frames,
        live: span.live,
        cycles: span.cycles,
        formula: Formula { vars, clauses },
    }
}

/// The query whether the claim of a subject, which is about the prepared design, is violated at a depth.
fn claim_formula(
    alloc: Global,
    prepared: &Prepared,
    late: &LateStart,
    phase: Phase,
    depth: usize,
    inv: &[InvClause],
) -> Result<Problem, AllocError>
    requires late { IsLateStart late.now }
    requires same { late.now.subject.design.now ≡ prepared.now.design }
    requires coding { late.now.subject.tables.now.coding ≡ prepared.now.coding }
    requires names { All (NamesRegs late.now.subject.design.now) inv.now }
    requires few { depth ≤ 64 }
    ensures exact { IfOk result (IsProblemFor prepared.now.coding (claim_query late.now.subject.design.now late.now.subject.claim.now phase depth inv.now)) }
    ensures normal { IfOk result (λ p. IsFormula p.formula) }
    ensures complete { IfOk result (IsCompleteFor (claim_query late.now.subject.design.now late.now.subject.claim.now phase depth inv.now)) }
{
    let (design, claim) = (late.subject.design, late.subject.claim);
    let span = claim_span(design, claim, phase, depth);
    let asked = claim_asked(alloc, design, claim, phase, depth, inv)?;
    let frames = Frames::by_claim(alloc, &late.subject, span.cycles, &asked)?;
    let cone = Cone::of(alloc, prepared, &frames, span)?;
    let mut clauses = ClauseTable::new(alloc);
    list_claim_cycles(alloc, &frames, late, &cone, span.cycles, &mut clauses)?;
    push_asked(alloc, &frames, &asked, &mut clauses)?;
    Ok(problem_of(frames, span, clauses))
}

/// The query whether a claim is violated at a depth, as a formula.
///
/// In the base phase the runs from reset are asked about, in which the start toggles `depth` cycles after the first live
/// cycle's successor; in the step phase the stretches in which the clauses `inv` hold in each cycle and the claim is
/// violated at no toggle before. Each model is such a run, and each such run gives a model.
pub fn formula(
    alloc: Global,
    design: &Prepared,
    claim: &Claim,
    phase: Phase,
    depth: usize,
    inv: &[InvClause],
) -> Result<Problem, AllocError>
    requires sound { IsSound design.now.design }
    requires fits { Fits design.now.design claim.now }
    requires names { All (NamesRegs design.now.design) inv.now }
    requires few { depth ≤ 64 }
    ensures exact { IfOk result (IsProblemFor design.now.coding (claim_query design.now.design claim.now phase depth inv.now)) }
    ensures normal { IfOk result (λ p. IsFormula p.formula) }
    ensures complete { IfOk result (IsCompleteFor (claim_query design.now.design claim.now phase depth inv.now)) }
{
    let late = LateStart::of(alloc, design, claim)?;
    claim_formula(alloc, design, &late, phase, depth, inv)
}

/// The query whether a clause over register bits fails at a depth, as a formula.
///
/// In the base phase the runs from reset are asked about; in the step phase the stretches in which the clauses `inv` hold
/// in each cycle before.
fn clause_formula(
    alloc: Global,
    design: &Prepared,
    inv: &[InvClause],
    clause: &InvClause,
    phase: Phase,
    depth: usize,
) -> Result<Problem, AllocError>
    requires sound { IsSound design.now.design }
    requires name { NamesRegs design.now.design clause.now }
    requires names { All (NamesRegs design.now.design) inv.now }
    requires few { depth ≤ 64 }
    ensures exact { IfOk result (IsProblemFor design.now.coding (clause_query design.now.design inv.now clause.now phase depth)) }
    ensures normal { IfOk result (λ p. IsFormula p.formula) }
    ensures complete { IfOk result (IsCompleteFor (clause_query design.now.design inv.now clause.now phase depth)) }
{
    let (bare, tables) = (design.bare(), design.tables());
    let span = clause_span(bare, phase, depth);
    let asked = clause_asked(alloc, bare, inv, clause, phase, depth)?;
    let frames = Frames::by_clause(alloc, tables, span.cycles, &asked)?;
    let cone = Cone::of(alloc, design, &frames, span)?;
    let mut clauses = ClauseTable::new(alloc);
    list_clause_cycles(alloc, &frames, &cone, span.cycles, &mut clauses)?;
    push_asked(alloc, &frames, &asked, &mut clauses)?;
    Ok(problem_of(frames, span, clauses))
}

/// The query whether the clause at a place of `inv` fails at a depth, as a formula.
pub fn inv_formula(
    alloc: Global,
    design: &Prepared,
    inv: &[InvClause],
    place: usize,
    phase: Phase,
    depth: usize,
) -> Result<Problem, AllocError>
    requires sound { IsSound design.now.design }
    requires names { All (NamesRegs design.now.design) inv.now }
    requires place { place < length inv.now }
    requires few { depth ≤ 64 }
    ensures exact { IfOk result (λ p. AtPlace inv.now place (λ clause.
        IsProblemFor design.now.coding (clause_query design.now.design inv.now clause phase depth) p)) }
    ensures normal { IfOk result (λ p. IsFormula p.formula) }
    ensures complete { IfOk result (λ p. AtPlace inv.now place (λ clause. IsCompleteFor (clause_query design.now.design inv.now clause phase depth) p)) }
{
    clause_formula(alloc, design, inv, &inv[place], phase, depth)
}
