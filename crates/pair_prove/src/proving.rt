//! The verdict on a claim.
ghost use Rattle.std.specs.Prelude.{◌≤◌, ◌<◌, All, IfOk};
ghost use Rattle.net_model.specs.Netlist.{IsSound};
ghost use Rattle.net_model.specs.Fits.{Fits};
ghost use Rattle.net_model.specs.Fits.{NamesRegs};
ghost use Rattle.verdicts.specs.Inductive.{AreAlwaysMet};
ghost use Rattle.verdicts.specs.Verdicts.{IsRight};
ghost use Rattle.verdict_types.specs.Forms.{IsVerdictInForm};
ghost use Rattle.pair_prove.specs.Proving.{HoldsWhereJustified, IsLeastWhereRefuted};

use crate::deciding::decide;
use net_model::Claim;
use query_asks::Prepared;
use std::alloc::{AllocError, Global};
use verdicts::{InvSet, Limits, Proof, Verdict, is_held_start};

/// The verdict on a claim, by induction up to the depth of the limits, with the kept clauses of `inv`.
///
/// For each depth from 0 on it is asked whether a run from reset is violated at that offset, and then whether a stretch is
/// that meets the kept clauses and is clean before. An answer of the first refutes the claim, and none of the second
/// justifies it (Sheeran, Singh and Stålmarck, FMCAD 2000). It is undecided where both leave it open at the greatest depth,
/// or where more clauses than the budget would have to be learnt for a query.
pub fn prove(
    alloc: Global,
    design: &Prepared,
    claim: &Claim,
    inv: &InvSet,
    limits: &Limits,
) -> Result<Verdict, AllocError>
    requires sound { IsSound design.now }
    requires fits { Fits design.now claim.now }
    requires names { All (NamesRegs design.now) inv.now.kept }
    requires met { AreAlwaysMet design.now inv.now.kept }
    requires few { limits.now.depth ≤ 64 }
    requires some { 0 < limits.now.budget }
    ensures right { IfOk result (IsRight design.now claim.now inv.now.kept limits.now) }
    ensures holds { IfOk result (HoldsWhereJustified design.now claim.now) }
    ensures violated { IfOk result (IsLeastWhereRefuted design.now claim.now) }
    ensures in_form { IfOk result IsVerdictInForm }
{
    verdict_of(alloc, design, claim, inv, limits)
}

/// The verdict on a claim, which may judge no capture or have a start that never toggles.
fn verdict_of(
    alloc: Global,
    design: &Prepared,
    claim: &Claim,
    inv: &InvSet,
    limits: &Limits,
) -> Result<Verdict, AllocError>
    requires sound { IsSound design.now }
    requires fits { Fits design.now claim.now }
    requires names { All (NamesRegs design.now) inv.now.kept }
    requires few { limits.now.depth ≤ 64 }
    ensures right { IfOk result (IsRight design.now claim.now inv.now.kept limits.now) }
    ensures in_form { IfOk result IsVerdictInForm }
{
    if claim.judged_count() == 0 {
        return Ok(Verdict::Justified(Proof::Single));
    }
    if is_held_start(design.bare(), &claim.start) {
        return Ok(Verdict::Justified(Proof::Fixed));
    }
    decide(alloc, design, claim, inv.kept.as_slice(), *limits)
}
