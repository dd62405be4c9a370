//! The clauses that an induction tries.
ghost use Rattle.std.specs.Prelude.{◌≡◌, All, IfOk, OnOk};
ghost use Rattle.net_model.specs.Netlist.{IsSound};
ghost use Rattle.net_model.specs.declared.netlist.Design.{Design as DesignRecord};
ghost use Rattle.net_model.specs.Fits.{Fits};
ghost use Rattle.net_model.specs.Fits.{NamesRegs};
ghost use Rattle.verdicts.specs.Inductive.{StandOnce};
ghost use Rattle.verdict_types.specs.Forms.{IsKeptClause};
ghost use Rattle.inv_candidates.specs.Candidates.{AddsClaim, AreCandidates};
ghost use Rattle.inv_candidates.specs.Listing.{AddsNew};

use crate::groups::group;
use crate::listings::Listing;
use crate::tables::ClauseTable;
use net_model::{Claim, Design, InvClause};
use sdcv_base::Seq;
use std::alloc::{AllocError, Global};
use verdicts::is_judged;

/// So many clauses are tried at most.
const MOST_CLAUSES: usize = 8192;

/// The clauses of one or two literals over different registers near each claim that is judged, claim by claim, each once. The list
/// ends where it has 8,192.
pub fn candidates(
    alloc: Global,
    design: &Design,
    claims: &Seq<Claim>,
) -> Result<Seq<InvClause>, AllocError>
    requires sound { IsSound design.now }
    requires fit { All (Fits design.now) claims.now }
    ensures candidates { IfOk result (AreCandidates design.now claims.now) }
    ensures names { IfOk result (All (NamesRegs design.now)) }
    ensures once { IfOk result StandOnce }
    ensures in_form { IfOk result (All IsKeptClause) }
{
    let mut listing = Listing::new(alloc);
    for k in 0..claims.len() {
        add_claim(alloc, design, claims.item(k), &mut listing)?;
    }
    let clauses = listing.first(alloc, MOST_CLAUSES)?;
    Ok(clauses)
}

/// The own clauses, and after them further ones in their order, each that is not listed yet: what an induction tries where a text
/// assists it. The further ones do not count towards the 8,192 of the own.
pub fn with_more(
    alloc: Global,
    own: Seq<InvClause>,
    extra: &[InvClause],
) -> Result<Seq<InvClause>, AllocError>
    requires once { StandOnce own }
    ensures added { IfOk result (AddsNew own extra.now) }
    ensures once { IfOk result StandOnce }
    ensures names { (design : DesignRecord) → All (NamesRegs design) own → All (NamesRegs design) extra.now
        → IfOk result (All (NamesRegs design)) }
    ensures in_form { All IsKeptClause own → All IsKeptClause extra.now → IfOk result (All IsKeptClause) }
{
    if extra.is_empty() {
        return Ok(own);
    }
    let mut table = ClauseTable::new(alloc);
    table.add_all(alloc, own.as_slice())?;
    table.add_all(alloc, extra)?;
    let clauses = table.clauses(alloc)?;
    Ok(clauses)
}

/// Adds the clauses of a claim's group, where the claim is judged and the list is not full.
fn add_claim(
    alloc: Global,
    design: &Design,
    claim: &Claim,
    listing: &mut Listing,
) -> Result<(), AllocError>
    requires sound { IsSound design.now }
    requires fits { Fits design.now claim.now }
    requires names { All (NamesRegs design.now) listing.old }
    ensures added { OnOk result (AddsClaim design.now claim.now listing.old listing.new) }
    ensures names { OnOk result (All (NamesRegs design.now) listing.new) }
{
    if listing.len() >= MOST_CLAUSES {
        return Ok(());
    }
    if !is_judged(design, claim) {
        return Ok(());
    }
    let group = group(alloc, design, claim)?;
    listing.add_group(&group)?;
    Ok(())
}
