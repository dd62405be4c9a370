//! The derivations of a kept clause, and of a claim.
ghost use Rattle.std.specs.Prelude.{◌≡◌, ◌≢◌, ◌<◌, ◌≤◌, All, IsOk, IfErr, Some, length, slice_get};
ghost use Rattle.net_model.specs.Netlist.{IsSound};
ghost use Rattle.net_model.specs.Fits.{Fits};
ghost use Rattle.net_model.specs.Queries.{claim_query, clause_query};
ghost use Rattle.net_model.specs.declared.invariants.InvClause.{InvClause as Clause};
ghost use Rattle.net_model.specs.declared.queries.Phase.TheVariants.{Base, Step};
ghost use Rattle.net_model.specs.Fits.{NamesRegs};
ghost use Rattle.verdicts.specs.Logs.{RefutesQuery};
ghost use Rattle.verdicts.specs.Certified.{ProvesClause, ProvesPair};
ghost use Rattle.rup_check.specs.declared.faults.CheckFault.TheVariants.{Memory};
ghost use Rattle.cert_values.specs.Certs.{HasBases};
ghost use Rattle.cert_defs.specs.Listed.{Suits};
ghost use Rattle.cert_defs.specs.Refused.{HasFaultIn, HasProofFault};
ghost use Rattle.cert_check.specs.Inducting.{AreBasesRefuted, HasBaseFault};

use crate::refuting::{Asked, refute_claim, refute_clause};
use cnf_encode::Prepared;
use net_model::{Claim, InvClause, Phase};
use proof_log::Derivation;
use rup_check::CheckFault;
use sdcv_base::Seq;
use std::alloc::Global;
use verdicts::{InvProof, Proof};

/// Whether the derivations refute the base queries of the clause at a place, at the offsets from 0 on.
fn refute_clause_bases(
    alloc: Global,
    design: &Prepared,
    kept: &[InvClause],
    place: usize,
    base: &Seq<Derivation>,
) -> Result<(), CheckFault>
    requires sound { IsSound design.now.design }
    requires names { All (NamesRegs design.now.design) kept.now }
    requires place { place < length kept.now }
    requires few { length base.now ≤ 64 }
    ensures refuted { IsOk result → (clause : Clause) → slice_get kept.now place ≡ Some clause
        → AreBasesRefuted design.now.coding (λ offset. clause_query design.now.design kept.now clause Base offset) base.now (length base.now) }
    ensures fault { IfErr result (λ e. e ≢ Memory → (clause : Clause) → slice_get kept.now place ≡ Some clause
        → HasBaseFault design.now.coding (λ offset. clause_query design.now.design kept.now clause Base offset) base.now e) }
{
    for offset in 0..base.len() {
        let asked = Asked {
            phase: Phase::Base,
            depth: offset,
        };
        refute_clause(alloc, design, kept, place, asked, base.item(offset))?;
    }
    Ok(())
}

/// Whether the derivations of the kept clause at a place refute its queries, the step query against all kept clauses.
pub(crate) fn prove_clause(
    alloc: Global,
    design: &Prepared,
    kept: &[InvClause],
    place: usize,
    proof: &InvProof,
) -> Result<(), CheckFault>
    requires sound { IsSound design.now.design }
    requires names { All (NamesRegs design.now.design) kept.now }
    requires place { place < length kept.now }
    requires few { length proof.now.base ≤ 64 }
    ensures proves { IsOk result → (clause : Clause) → slice_get kept.now place ≡ Some clause
        → ProvesClause design.now.coding design.now.design kept.now (length proof.now.base) clause proof.now }
    ensures fault { IfErr result (λ e. e ≢ Memory → (clause : Clause) → slice_get kept.now place ≡ Some clause
        → HasFaultIn design.now.coding (λ offset. clause_query design.now.design kept.now clause Base offset)
        (clause_query design.now.design kept.now clause Step (length proof.now.base)) proof.now.base proof.now.step e) }
{
    refute_clause_bases(alloc, design, kept, place, &proof.base)?;
    let asked = Asked {
        phase: Phase::Step,
        depth: proof.base.len(),
    };
    refute_clause(alloc, design, kept, place, asked, &proof.step)
}

/// Whether the derivations refute the base queries of a claim, at the offsets from 0 on.
fn refute_claim_bases(
    alloc: Global,
    design: &Prepared,
    kept: &[InvClause],
    claim: &Claim,
    base: &Seq<Derivation>,
) -> Result<(), CheckFault>
    requires sound { IsSound design.now.design }
    requires fits { Fits design.now.design claim.now }
    requires names { All (NamesRegs design.now.design) kept.now }
    requires few { length base.now ≤ 64 }
    ensures refuted { IsOk result → AreBasesRefuted design.now.coding
        (λ offset. claim_query design.now.design claim.now Base offset kept.now) base.now (length base.now) }
    ensures fault { IfErr result (λ e. e ≢ Memory → HasBaseFault design.now.coding
        (λ offset. claim_query design.now.design claim.now Base offset kept.now) base.now e) }
{
    for offset in 0..base.len() {
        let asked = Asked {
            phase: Phase::Base,
            depth: offset,
        };
        refute_claim(alloc, design, kept, claim, asked, base.item(offset))?;
    }
    Ok(())
}

/// Whether the derivations refute the queries of a claim up to the step query of the depth.
fn prove_at_depth(
    alloc: Global,
    design: &Prepared,
    kept: &[InvClause],
    claim: &Claim,
    base: &Seq<Derivation>,
    step: &Derivation,
) -> Result<(), CheckFault>
    requires sound { IsSound design.now.design }
    requires fits { Fits design.now.design claim.now }
    requires names { All (NamesRegs design.now.design) kept.now }
    requires few { length base.now ≤ 64 }
    ensures refuted { IsOk result → AreBasesRefuted design.now.coding
        (λ offset. claim_query design.now.design claim.now Base offset kept.now) base.now (length base.now)
        × RefutesQuery design.now.coding (claim_query design.now.design claim.now Step (length base.now) kept.now) step.now }
    ensures fault { IfErr result (λ e. e ≢ Memory → HasFaultIn design.now.coding (λ offset. claim_query design.now.design claim.now Base offset kept.now)
        (claim_query design.now.design claim.now Step (length base.now) kept.now) base.now step.now e) }
{
    refute_claim_bases(alloc, design, kept, claim, base)?;
    let asked = Asked {
        phase: Phase::Step,
        depth: base.len(),
    };
    refute_claim(alloc, design, kept, claim, asked, step)
}

/// Whether what is told of a claim, which is of its kind, proves it.
pub(crate) fn prove_claim(
    alloc: Global,
    design: &Prepared,
    kept: &[InvClause],
    claim: &Claim,
    proof: &Proof,
) -> Result<(), CheckFault>
    requires sound { IsSound design.now.design }
    requires fits { Fits design.now.design claim.now }
    requires names { All (NamesRegs design.now.design) kept.now }
    requires bases { HasBases proof.now }
    requires suits { Suits design.now.design claim.now proof.now }
    ensures proves { IsOk result → ProvesPair design.now.coding design.now.design kept.now claim.now proof.now }
    ensures fault { IfErr result (λ e. e ≢ Memory → HasProofFault design.now.coding design.now.design kept.now claim.now proof.now e) }
{
    match proof {
        Proof::Single | Proof::Fixed => Ok(()),
        Proof::Depth { base, step, .. } => prove_at_depth(alloc, design, kept, claim, base, step),
    }
}
