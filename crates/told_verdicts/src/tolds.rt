//! What is told of verdicts.
ghost use Rattle.std.specs.Prelude.{◌≡◌, IfOk, All, length};
ghost use Rattle.net_model.specs.Netlist.{IsSound};
ghost use Rattle.net_model.specs.Fits.{Fits};
ghost use Rattle.firm_runs.specs.Frees.{LeavesOpen};
ghost use Rattle.told_verdicts.specs.Tolds.{IsWitnessed, AreWitnessed, IsToldOf, AreTold, AreRightTold};

use firm_runs::{FreeBits, shows_firm};
use net_model::{Claim, Design};
use sdcv_base::Seq;
use std::alloc::{AllocError, Global};
use verdicts::{Cause, Verdict};

/// What is told of a verdict on one claim, where the design has a free input or a sink.
fn told_one(
    alloc: Global,
    design: &Design,
    free: &FreeBits,
    claim: &Claim,
    verdict: Verdict,
) -> Result<Verdict, AllocError>
    requires sound { IsSound design.now }
    requires fits { Fits design.now claim.now }
    requires witnessed { IsWitnessed design.now claim.now verdict }
    requires open_ { LeavesOpen design.now free.now }
    ensures { IfOk result (IsToldOf design.now free.now claim.now verdict) }
{
    let (offset, stimulus) = match verdict {
        Verdict::Refuted { offset, stimulus } => (offset, stimulus),
        other => return Ok(other),
    };
    let firm = shows_firm(alloc, design, free, claim, &stimulus, offset)?;
    if firm {
        Ok(Verdict::Refuted { offset, stimulus })
    } else {
        Ok(Verdict::Undecided(Cause::Free { offset, stimulus }))
    }
}

/// What is told of the verdicts on some claims, where the design has a free input or a sink.
fn told_each(
    alloc: Global,
    design: &Design,
    free: &FreeBits,
    claims: &Seq<Claim>,
    verdicts: Seq<Verdict>,
) -> Result<Seq<Verdict>, AllocError>
    requires sound { IsSound design.now }
    requires fit { All (Fits design.now) claims.now }
    requires as_many { length verdicts ≡ length claims.now }
    requires witnessed { AreWitnessed design.now claims.now verdicts }
    requires open_ { LeavesOpen design.now free.now }
    ensures { IfOk result (AreTold design.now free.now claims.now verdicts) }
{
    let mut told = Seq::new(alloc);
    for verdict in verdicts.into_vec() {
        let claim = claims.item(told.len());
        told.push(told_one(alloc, design, free, claim, verdict)?)?;
    }
    Ok(told)
}

/// What is told of the verdicts on some claims. A refutation is told as it is where no input is free and no output is a sink, or
/// where it is shown firm; else it is told as undecided, with its stimulus. All other verdicts are told as they are.
///
/// The certificate is that of the judged verdicts.
pub fn told(
    alloc: Global,
    design: &Design,
    free: &FreeBits,
    claims: &Seq<Claim>,
    verdicts: Seq<Verdict>,
) -> Result<Seq<Verdict>, AllocError>
    requires sound { IsSound design.now }
    requires fit { All (Fits design.now) claims.now }
    requires as_many { length verdicts ≡ length claims.now }
    requires witnessed { AreWitnessed design.now claims.now verdicts }
    ensures told { IfOk result (AreTold design.now free.now claims.now verdicts) }
    ensures right { IfOk result (AreRightTold design.now free.now claims.now verdicts) }
{
    if !free.leaves_open(design) {
        return Ok(verdicts);
    }
    let told = told_each(alloc, design, free, claims, verdicts)?;
    Ok(told)
}
