//! What is wanted of claims, and whether it is so.
ghost use Rattle.std.specs.Prelude.{◌≤◌, ◌<◌, All, length};
ghost use Rattle.net_model.specs.Netlist.{IsSound};
ghost use Rattle.net_model.specs.Fits.{Fits, NamesRegs};
ghost use Rattle.verdicts.specs.Inductive.{AreAlwaysMet};

use crate::cases::{claims_of, sound_design};
use crate::clauses::{are_clauses, are_kept, are_spent};
use crate::judged_claims::VERDICTS;
use crate::kept_clauses::KEPT;
use crate::lists::{GROUPS, TRIED};
use inv_candidates::{candidates, group};
use invariants::invariants;
use net_model::{Claim, Design, Phase};
use net_samples::{Ask, Lits, Part};
use pair_prove::prove;
use query_asks::Prepared;
use sdcv_base::Seq;
use std::alloc::{AllocError, Global};
use std::process::Abort;
use verdicts::{Cause, InvSet, Limits, Proof, Verdict};

/// What a verdict says: at which depth; or at which offset, by a run of how many cycles.
#[derive(Clone, Copy, PartialEq, Eq)]
pub enum Said {
    Single,
    Fixed,
    Justified(usize),
    Refuted(usize, usize),
    Stays,
    Spends(Phase, usize),
    /// Open for what is free or cut.
    Lacks,
}

/// What is wanted of claims.
pub enum Want {
    /// The registers near the first claim.
    Near(&'static [usize]),
    /// The clauses that are tried.
    Tries(&'static [Lits]),
    /// At a depth and a budget, the clauses that are kept, and those whose query spends the budget.
    Keeps(usize, u64, &'static [Lits], &'static [Lits]),
    /// At a depth of the kept clauses, a greatest depth and a budget, the verdict on the first claim. At depth 0 no clause is kept.
    Says(usize, usize, u64, Said),
}

/// A design, its claims, and what is wanted of them.
pub struct Row(pub &'static [Part], pub &'static [&'static [Ask]], pub Want);

fn told(verdict: &Verdict) -> Said {
    match verdict {
        Verdict::Justified(Proof::Single) => Said::Single,
        Verdict::Justified(Proof::Fixed) => Said::Fixed,
        Verdict::Justified(Proof::Depth { depth, .. }) => Said::Justified(*depth),
        Verdict::Refuted { offset, stimulus } => Said::Refuted(*offset, stimulus.inputs.len()),
        Verdict::Undecided(Cause::Depth) => Said::Stays,
        Verdict::Undecided(Cause::Budget { phase, depth, .. }) => Said::Spends(*phase, *depth),
        Verdict::Undecided(Cause::Free { .. } | Cause::Cut) => Said::Lacks,
    }
}

/// What the verdict on a claim says, with the kept clauses.
fn judged(
    alloc: Global,
    design: &Prepared,
    claim: &Claim,
    inv: &InvSet,
    limits: &Limits,
) -> Result<Said, AllocError>
    requires sound { IsSound design.now }
    requires fits { Fits design.now claim.now }
    requires names { All (NamesRegs design.now) inv.now.kept }
    requires met { AreAlwaysMet design.now inv.now.kept }
    requires few { limits.now.depth ≤ 64 }
    requires some { 0 < limits.now.budget }
{
    let verdict = prove(alloc, design, claim, inv, limits)?;
    Ok(told(&verdict))
}

/// What the verdict on a claim of a design says, with the kept clauses.
pub fn judged_bare(
    alloc: Global,
    design: &Design,
    claim: &Claim,
    inv: &InvSet,
    limits: &Limits,
) -> Result<Said, AllocError>
    requires sound { IsSound design.now }
    requires fits { Fits design.now claim.now }
    requires names { All (NamesRegs design.now) inv.now.kept }
    requires met { AreAlwaysMet design.now inv.now.kept }
    requires few { limits.now.depth ≤ 64 }
    requires some { 0 < limits.now.budget }
{
    let prepared = Prepared::of(alloc, design)?;
    judged(alloc, &prepared, claim, inv, limits)
}

fn is_judged_so(
    alloc: Global,
    design: &Design,
    claims: &Seq<Claim>,
    depth: usize,
    limits: &Limits,
    want: Said,
) -> Result<bool, AllocError>
    requires sound { IsSound design.now }
    requires fit { All (Fits design.now) claims.now }
    requires any { 0 < length claims.now }
    requires shallow { depth ≤ 8 }
    requires few { limits.now.depth ≤ 64 }
    requires some { 0 < limits.now.budget }
{
    let inv = invariants(alloc, design, claims, &[], depth, limits.budget)?;
    Ok(judged_bare(alloc, design, claims.item(0), &inv, limits)? == want)
}

fn are_found(
    alloc: Global,
    design: &Design,
    claims: &Seq<Claim>,
    depth: usize,
    budget: u64,
    wants: (&[Lits], &[Lits]),
) -> Result<bool, AllocError>
    requires sound { IsSound design.now }
    requires fit { All (Fits design.now) claims.now }
    requires few { depth ≤ 8 }
    requires some { 0 < budget }
{
    let set = invariants(alloc, design, claims, &[], depth, budget)?;
    Ok(are_kept(&set, wants.0) && are_spent(&set, wants.1))
}

fn are_near(
    alloc: Global,
    design: &Design,
    claim: &Claim,
    wants: &[usize],
) -> Result<bool, AllocError>
    requires sound { IsSound design.now }
    requires fits { Fits design.now claim.now }
{
    Ok(group(alloc, design, claim)?.as_slice() == wants)
}

fn are_tried(
    alloc: Global,
    design: &Design,
    claims: &Seq<Claim>,
    wants: &[Lits],
) -> Result<bool, AllocError>
    requires sound { IsSound design.now }
    requires fit { All (Fits design.now) claims.now }
{
    let clauses = candidates(alloc, design, claims)?;
    Ok(are_clauses(&clauses, wants))
}

fn is_so(
    rt: &impl Abort,
    alloc: Global,
    design: &Design,
    claims: &Seq<Claim>,
    want: &Want,
) -> Result<bool, AllocError>
    requires sound { IsSound design.now }
    requires fit { All (Fits design.now) claims.now }
{
    assert!(rt; claims.len() > 0);
    match *want {
        Want::Near(regs) => are_near(alloc, design, claims.item(0), regs),
        Want::Tries(clauses) => are_tried(alloc, design, claims, clauses),
        Want::Keeps(depth, budget, kept, spent) => {
            assert!(rt; depth <= 8 && budget > 0);
            are_found(alloc, design, claims, depth, budget, (kept, spent))
        }
        Want::Says(kept_depth, depth, budget, says) => {
            assert!(rt; kept_depth <= 8 && depth <= 64 && budget > 0);
            let limits = Limits { depth, budget };
            is_judged_so(alloc, design, claims, kept_depth, &limits, says)
        }
    }
}

fn is_right_of(
    rt: &impl Abort,
    alloc: Global,
    design: &Design,
    row: &Row,
) -> Result<bool, AllocError>
    requires sound { IsSound design.now }
{
    let claims = claims_of(rt, alloc, design, row.1)?;
    is_so(rt, alloc, design, &claims, &row.2)
}

fn is_right(rt: &impl Abort, alloc: Global, row: &Row) -> Result<bool, AllocError> {
    let design = sound_design(rt, alloc, row.0)?;
    is_right_of(rt, alloc, &design, row)
}

fn check_rows(rt: &impl Abort, alloc: Global, rows: &[Row]) -> Result<(), AllocError> {
    for row in rows {
        assert!(rt; is_right(rt, alloc, row)?);
    }
    Ok(())
}

#[test]
fn groups_clauses_and_verdicts_are_those_worked_out_by_hand(
    rt: HostRuntime,
) -> Result<(), AllocError> {
    check_rows(&rt, rt.alloc(), GROUPS)?;
    check_rows(&rt, rt.alloc(), TRIED)?;
    check_rows(&rt, rt.alloc(), KEPT)?;
    check_rows(&rt, rt.alloc(), VERDICTS)
}
