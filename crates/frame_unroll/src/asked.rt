//! The clauses that a query asks, apart from the definitions of their keys.
ghost use Rattle.std.specs.Prelude.{◌≡◌, ◌≤◌, ◌+◌, ◌++◌, ◌∷◌, [], map, All, IfOk, OnOk};
ghost use Rattle.net_model.specs.Netlist.{IsSound};
ghost use Rattle.net_model.specs.Fits.{Fits};
ghost use Rattle.net_model.specs.Judge.{judged_count};
ghost use Rattle.query_model.specs.Keys.{opposite};
ghost use Rattle.net_model.specs.Queries.{live_of, claim_query, clause_query};
ghost use Rattle.net_model.specs.Fits.{NamesRegs};
ghost use Rattle.query_model.specs.Formula.{asked_clauses};
ghost use Rattle.frame_unroll.specs.Framed.{AreWithin};

use crate::kept::{clause_in, kept_clauses};
use crate::spans::{claim_span, clause_span, only_in_step};
use crate::violations::{opposite_of, push_bad, push_clean_below};
use net_model::{Claim, Design, InvClause, Phase};
use query_model::KeyLit;
use sdcv_base::Seq;
use std::alloc::{AllocError, Global};

/// What is asked about a claim at a depth: a run or stretch in which it is violated there, and in a stretch at no toggle
/// before.
pub fn claim_asked(
    alloc: Global,
    design: &Design,
    claim: &Claim,
    phase: Phase,
    depth: usize,
    inv: &[InvClause],
) -> Result<Seq<Seq<KeyLit>>, AllocError>
    requires sound { IsSound design.now }
    requires fits { Fits design.now claim.now }
    requires names { All (NamesRegs design.now) inv.now }
    requires few { depth ≤ 64 }
    ensures asked { IfOk result (λ asked. asked ≡ asked_clauses (claim_query design.now claim.now phase depth inv.now)) }
    ensures within { IfOk result (AreWithin design.now (live_of design.now phase + depth + 1 + judged_count claim.now)) }
{
    let span = claim_span(design, claim, phase, depth);
    let clean = only_in_step(phase, depth);
    let mut asked = kept_clauses(alloc, design, inv, span.kept_below)?;
    push_clean_below(alloc, &mut asked, design, claim, span.live, clean)?;
    push_bad(alloc, &mut asked, design, claim, span.live + 1 + depth)?;
    Ok(asked)
}

/// That each literal of a clause is false.
fn push_broken(
    alloc: Global,
    asked: &mut Seq<Seq<KeyLit>>,
    lits: &Seq<KeyLit>,
) -> Result<(), AllocError>
    ensures { OnOk result (asked.new ≡ asked.old ++ map (λ l. opposite l ∷ []) lits.now) }
{
    for lit in lits.as_slice() {
        asked.push(Seq::one(alloc, opposite_of(*lit))?)?;
    }
    Ok(())
}

/// What is asked about a clause at a depth: a run or stretch in whose last cycle it fails.
pub fn clause_asked(
    alloc: Global,
    design: &Design,
    inv: &[InvClause],
    clause: &InvClause,
    phase: Phase,
    depth: usize,
) -> Result<Seq<Seq<KeyLit>>, AllocError>
    requires sound { IsSound design.now }
    requires name { NamesRegs design.now clause.now }
    requires names { All (NamesRegs design.now) inv.now }
    requires few { depth ≤ 64 }
    ensures asked { IfOk result (λ asked. asked ≡ asked_clauses (clause_query design.now inv.now clause.now phase depth)) }
    ensures within { IfOk result (AreWithin design.now (live_of design.now phase + depth + 1)) }
{
    let span = clause_span(design, phase, depth);
    let lits = clause_in(alloc, design, clause, span.cycles - 1)?;
    let mut asked = kept_clauses(alloc, design, inv, span.kept_below)?;
    push_broken(alloc, &mut asked, &lits)?;
    Ok(asked)
}
