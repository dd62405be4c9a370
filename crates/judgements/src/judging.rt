//! The verdicts on all claims.
ghost use Rattle.std.specs.Prelude.{◌<◌, ◌≤◌, All, IfOk};
ghost use Rattle.net_model.specs.Netlist.{IsSound};
ghost use Rattle.net_model.specs.Fits.{Fits};
ghost use Rattle.net_model.specs.Fits.{NamesRegs};
ghost use Rattle.verdicts.specs.Inductive.{AreAlwaysMet};
ghost use Rattle.judgements.specs.Judgements.{AreAllInForm, AreFound, AreJudged, CanBeSought};

use crate::judged::Judged;
use crate::searches::InvSearch;
use invariants::invariants;
use net_model::{Claim, Design};
use pair_prove::{Progress, prove};
use query_asks::Prepared;
use sdcv_base::Seq;
use std::alloc::{AllocError, Global};
use verdicts::{InvSet, Limits, Verdict};

/// The verdicts on some claims about a design, each proved with the clauses over register bits that are kept for all of them
/// by the search. How many have one, `progress` is told before the first and after each.
pub fn judge<P: Progress>(
    alloc: Global,
    design: &Design,
    claims: &Seq<Claim>,
    search: &InvSearch,
    limits: &Limits,
    progress: &mut P,
) -> Result<Judged, AllocError>
    requires sound { IsSound design.now }
    requires fit { All (Fits design.now) claims.now }
    requires sought { CanBeSought design.now search.now }
    requires few { limits.now.depth ≤ 64 }
    requires some { 0 < limits.now.budget }
    ensures judged { IfOk result (AreJudged design.now claims.now search.now.extra.now search.now.depth limits.now) }
    ensures in_form { IfOk result AreAllInForm }
{
    progress.judged(0, claims.len());
    let InvSearch { depth, extra } = *search;
    let inv = invariants(alloc, design, claims, extra, depth, limits.budget)?;
    let verdicts = all_verdicts(alloc, design, claims, &inv, limits, progress)?;
    Ok(Judged { inv, verdicts })
}

// The verdict on each claim. Where there is none, the design is not prepared.
fn all_verdicts<P: Progress>(
    alloc: Global,
    design: &Design,
    claims: &Seq<Claim>,
    inv: &InvSet,
    limits: &Limits,
    progress: &mut P,
) -> Result<Seq<Verdict>, AllocError>
    requires sound { IsSound design.now }
    requires fit { All (Fits design.now) claims.now }
    requires names { All (NamesRegs design.now) inv.now.kept }
    requires met { AreAlwaysMet design.now inv.now.kept }
    requires few { limits.now.depth ≤ 64 }
    requires some { 0 < limits.now.budget }
    ensures { IfOk result (AreFound design.now claims.now inv.now.kept limits.now) }
{
    if claims.is_empty() {
        return Ok(Seq::new(alloc));
    }
    let prepared = Prepared::of(alloc, design)?;
    verdicts_on(alloc, &prepared, claims, inv, limits, progress)
}

// The verdict on each claim of a prepared design.
fn verdicts_on<P: Progress>(
    alloc: Global,
    design: &Prepared,
    claims: &Seq<Claim>,
    inv: &InvSet,
    limits: &Limits,
    progress: &mut P,
) -> Result<Seq<Verdict>, AllocError>
    requires sound { IsSound design.now }
    requires fit { All (Fits design.now) claims.now }
    requires names { All (NamesRegs design.now) inv.now.kept }
    requires met { AreAlwaysMet design.now inv.now.kept }
    requires few { limits.now.depth ≤ 64 }
    requires some { 0 < limits.now.budget }
    ensures { IfOk result (AreFound design.now claims.now inv.now.kept limits.now) }
{
    let mut verdicts = Seq::new(alloc);
    for place in 0..claims.len() {
        let claim = claims.item(place);
        verdicts.push(prove(alloc, design, claim, inv, limits)?)?;
        progress.judged(place + 1, claims.len());
    }
    Ok(verdicts)
}
