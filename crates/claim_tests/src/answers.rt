//! The answer to a certificate that no text can spell.
ghost use Rattle.std.specs.Prelude.{All, IfOk};
ghost use Rattle.net_model.specs.Netlist.{IsSound};
ghost use Rattle.net_model.specs.Fits.{Fits};
ghost use Rattle.cert_values.specs.Certs.{IsComplete};

use crate::cases::{claims_of, sound_design};
use crate::machines::TIED;
use crate::wanted_answers::is_wanted;
use cert_check::check;
use cert_values::{Cert, CertFault, PairProof};
use net_model::{Claim, Design};
use proof_log::{Clause, DerivStep, Derivation};
use rup_check::CheckFault::HintMissing;
use sdcv_base::Seq;
use std::alloc::{AllocError, Global};
use std::process::Abort;
use verdict_types::Proof;

// An empty clause that names clause 0, which no line of a text can do.
fn step_naming_0(alloc: Global) -> Result<DerivStep, AllocError> {
    let hints = Seq::one(alloc, 0)?;
    let lits = Seq::new(alloc);
    let clause = Clause { lits };
    Ok(DerivStep { clause, hints })
}

// A certificate that keeps nothing, and has that step for claim 1, at depth 0.
fn cert_naming_0(alloc: Global) -> Result<Cert, AllocError>
    ensures { IfOk result (λ c. IsComplete c) }
{
    let steps = Seq::one(alloc, step_naming_0(alloc)?)?;
    let proof = Proof::Depth {
        depth: 0,
        base: Seq::new(alloc),
        step: Derivation { steps },
    };
    Ok(Cert {
        version: 2,
        depth: 0,
        kept: Seq::new(alloc),
        proofs: Seq::new(alloc),
        pairs: Seq::one(alloc, PairProof { number: 1, proof })?,
    })
}

fn is_refused(alloc: Global, design: &Design, claims: &Seq<Claim>) -> Result<bool, AllocError>
    requires sound { IsSound design.now }
    requires fit { All (Fits design.now) claims.now }
{
    let cert = cert_naming_0(alloc)?;
    let found = check(alloc, design, claims.as_slice(), &cert);
    Ok(is_wanted(&found, &Err(CertFault::Pair(1, HintMissing(1)))))
}

fn is_refused_of(rt: &impl Abort, alloc: Global, design: &Design) -> Result<bool, AllocError>
    requires sound { IsSound design.now }
{
    let claims = claims_of(rt, alloc, design, &[&[]])?;
    is_refused(alloc, design, &claims)
}

#[test]
fn a_step_may_not_name_clause_0(rt: HostRuntime) -> Result<(), AllocError> {
    let design = sound_design(&rt, rt.alloc(), TIED)?;
    assert!(rt; is_refused_of(&rt, rt.alloc(), &design)?);
    Ok(())
}
