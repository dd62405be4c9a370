//! The greatest inductive set.
ghost use Rattle.std.specs.Prelude.{◌≤◌, ◌<◌, All, IfOk};
ghost use Rattle.net_model.specs.Netlist.{IsSound};
ghost use Rattle.net_model.specs.Fits.{NamesRegs};
ghost use Rattle.verdicts.specs.Inductive.{StandOnce};
ghost use Rattle.verdicts.specs.Kept.{IsKeptSet};
ghost use Rattle.verdict_types.specs.Forms.{IsKeptClause, IsSetInForm};
ghost use Rattle.induction.specs.Pools.{IsEmptySet};

use crate::members::{clauses_of, holding_in, proofs_of, take_out};
use crate::pools::Pool;
use crate::steps::{Round, ask_steps};
use net_model::{Design, InvClause, Phase};
use query_asks::Prepared;
use sdcv_base::Seq;
use std::alloc::{AllocError, Global};
use verdicts::{InvSet, InvSpent};

/// The greatest inductive subset, at a depth, of candidates that stand once each: what is kept holds in every live cycle of
/// every run from reset. A candidate whose query spends the budget is left out, with an entry.
///
/// The design is prepared only where a query is asked: not at depth 0, and not of no candidate.
pub fn greatest_set(
    alloc: Global,
    design: &Design,
    candidates: &Seq<InvClause>,
    depth: usize,
    budget: u64,
) -> Result<InvSet, AllocError>
    requires sound { IsSound design.now }
    requires names { All (NamesRegs design.now) candidates.now }
    requires once { StandOnce candidates.now }
    requires few { depth ≤ 8 }
    requires some { 0 < budget }
    ensures kept { IfOk result (IsKeptSet design.now depth budget candidates.now) }
    ensures names { IfOk result (λ set. All (NamesRegs design.now) set.kept) }
    ensures in_form { IfOk result (λ set. All IsKeptClause candidates.now → IsSetInForm set) }
{
    if depth == 0 || candidates.is_empty() {
        return Ok(empty_set(alloc, depth));
    }
    let prepared = Prepared::of(alloc, design)?;
    set_by_rounds(alloc, &prepared, candidates, depth, budget)
}

/// The set that is left after all rounds.
///
/// Clauses are left out until the step query of each against all that are left is refuted (van Eijk, 2000). After one is left
/// out the round begins with those that stood after it, so none is asked twice before all others were.
fn set_by_rounds(
    alloc: Global,
    design: &Prepared,
    candidates: &Seq<InvClause>,
    depth: usize,
    budget: u64,
) -> Result<InvSet, AllocError>
    requires sound { IsSound design.now }
    requires names { All (NamesRegs design.now) candidates.now }
    requires once { StandOnce candidates.now }
    requires deep { 0 < depth }
    requires few { depth ≤ 8 }
    requires some { 0 < budget }
    ensures kept { IfOk result (IsKeptSet design.now depth budget candidates.now) }
    ensures names { IfOk result (λ set. All (NamesRegs design.now) set.kept) }
    ensures in_form { IfOk result (λ set. All IsKeptClause candidates.now → IsSetInForm set) }
{
    let Pool {
        mut members,
        mut spent,
        ..
    } = Pool::of(alloc, design, candidates, depth, budget)?;
    loop {
        let clauses = clauses_of(alloc, &members)?;
        match ask_steps(alloc, design, &clauses, depth, budget)? {
            Round::Refuted(steps) => {
                let proofs = proofs_of(alloc, members, steps)?;
                let kept = clauses;
                // There are as many as in a slice, so fewer than 2^63.
                let _kept = kept.as_slice();
                return Ok(InvSet {
                    depth,
                    kept,
                    proofs,
                    spent,
                });
            }
            Round::Broken { place, stretch } => {
                members = holding_in(members, place, stretch.item(depth));
            }
            Round::Spent { place, log } => {
                let (clause, others) = take_out(members, place);
                members = others;
                spent.push(InvSpent {
                    clause,
                    phase: Phase::Step,
                    offset: depth,
                    against: clauses,
                    place,
                    log,
                })?;
            }
        }
    }
}

/// The set of a depth in which nothing is kept.
fn empty_set(alloc: Global, depth: usize) -> InvSet
    ensures { IsEmptySet depth result }
{
    InvSet {
        depth,
        kept: Seq::new(alloc),
        proofs: Seq::new(alloc),
        spent: Seq::new(alloc),
    }
}
