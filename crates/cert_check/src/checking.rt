//! The check of a certificate.
ghost use Rattle.std.specs.Prelude.{◌≡◌, ◌≢◌, ◌↔◌, ℕ, List, [], All, IsOk, IfOk, IfErr, IsTrue};
ghost use Rattle.net_model.specs.Netlist.{IsSound};
ghost use Rattle.net_model.specs.Fits.{Fits};
ghost use Rattle.net_model.specs.declared.claims.Claim.{Claim as TheClaim};
ghost use Rattle.net_model.specs.Fits.{NamesRegs};
ghost use Rattle.rup_check.specs.declared.faults.CheckFault.TheVariants.{Memory as NoRoom};
ghost use Rattle.verdicts.specs.Certified.{ProveKept};
ghost use Rattle.cert_values.specs.Certs.{IsComplete};
ghost use Rattle.cert_values.specs.Versions as versions;
ghost use Rattle.cert_defs.specs.Listed.{IsWellListed};
ghost use Rattle.cert_defs.specs.Accepted.{Accepts, AreProved, HoldEach, IsAccepted};
ghost use Rattle.cert_defs.specs.Refused.{IsCause};
ghost use Rattle.cert_check.specs.Checking.{clause_fault, pair_fault, IsAnswerFor};

use crate::inducting::{prove_claim, prove_clause};
use crate::listing::{claim_of, well_listed};
use cert_values::{Cert, CertFault, coding_of};
use cnf_encode::Prepared;
use net_model::{Claim, Design};
use rup_check::CheckFault;
use sdcv_base::Seq;
use std::alloc::Global;

/// The numbers of the claims that the certificate lists, ascending, where it is accepted: its registers and claims are there, each
/// claim is listed once and what is told of it is of its kind, and the derivations of each kept clause and of each claim refute
/// the formulas of their queries, in the coding of its version. Each listed claim then holds in every run from reset, where hazards count and where they don't.
///
/// The causes to refuse are looked for in this order, so a later one is told only where there is none of an earlier kind. Memory
/// is taken for a mark a claim, for the numbers, for what depends on the design alone, and for one formula at a time.
pub fn check(
    alloc: Global,
    design: &Design,
    claims: &[Claim],
    cert: &Cert,
) -> Result<Seq<u64>, CertFault>
    requires sound { IsSound design.now }
    requires fit { All (Fits design.now) claims.now }
    requires complete { IsComplete cert.now }
    ensures accepted { IfOk result (Accepts (versions.coding_of cert.now.version) design.now claims.now cert.now) }
    ensures holds { IfOk result (HoldEach design.now claims.now) }

    // Only want of memory is free.
    ensures cause { IfErr result (IsCause (versions.coding_of cert.now.version) design.now claims.now cert.now) }
    ensures only { (numbers : List ℕ) → Accepts (versions.coding_of cert.now.version) design.now claims.now cert.now numbers → IsAnswerFor numbers result }
{
    let numbers = well_listed(alloc, design, claims, cert)?;
    prove_listed(alloc, design, claims, cert)?;
    Ok(numbers)
}

/// Whether each kept clause and each listed claim is proved. Where the certificate has neither, the design is not prepared.
fn prove_listed(
    alloc: Global,
    design: &Design,
    claims: &[Claim],
    cert: &Cert,
) -> Result<(), CertFault>
    requires sound { IsSound design.now }
    requires fit { All (Fits design.now) claims.now }
    requires complete { IsComplete cert.now }
    requires listed { IsWellListed design.now claims.now cert.now }
    ensures ok { IsOk result → IsAccepted (versions.coding_of cert.now.version) design.now claims.now cert.now }
    ensures err { IfErr result (IsCause (versions.coding_of cert.now.version) design.now claims.now cert.now) }
{
    if lists_nothing(cert) {
        return Ok(());
    }
    let prepared = Prepared::of(alloc, design, coding_of(cert.version))?;
    prove_kept(alloc, &prepared, cert)?;
    prove_pairs(alloc, &prepared, claims, cert)
}

/// Whether the certificate has neither a kept clause nor a pair.
fn lists_nothing(cert: &Cert) -> bool
    ensures { IsTrue result ↔ ((cert.now.kept ≡ []) × (cert.now.pairs ≡ [])) }
{
    cert.kept.is_empty() && cert.pairs.is_empty()
}

/// Whether the derivations of each kept clause refute its queries.
fn prove_kept(alloc: Global, design: &Prepared, cert: &Cert) -> Result<(), CertFault>
    requires sound { IsSound design.now.design }
    requires names { All (NamesRegs design.now.design) cert.now.kept }
    requires complete { IsComplete cert.now }
    ensures ok { IsOk result → ProveKept design.now.coding design.now.design cert.now.kept cert.now.depth cert.now.proofs }
    ensures err { IfErr result (λ e. (claims : List TheClaim) → IsWellListed design.now.design claims cert.now
        → IsCause design.now.coding design.now.design claims cert.now e) }
{
    for place in 0..cert.kept.len() {
        let proof = cert.proofs.item(place);
        if let Err(fault) = prove_clause(alloc, design, cert.kept.as_slice(), place, proof) {
            return Err(at_clause(place + 1, fault));
        }
    }
    Ok(())
}

/// Whether each listed claim is proved, with the kept clauses.
fn prove_pairs(
    alloc: Global,
    design: &Prepared,
    claims: &[Claim],
    cert: &Cert,
) -> Result<(), CertFault>
    requires sound { IsSound design.now.design }
    requires fit { All (Fits design.now.design) claims.now }
    requires complete { IsComplete cert.now }
    requires listed { IsWellListed design.now.design claims.now cert.now }
    requires kept { ProveKept design.now.coding design.now.design cert.now.kept cert.now.depth cert.now.proofs }
    ensures ok { IsOk result → AreProved design.now.coding design.now.design claims.now cert.now }
    ensures err { IfErr result (IsCause design.now.coding design.now.design claims.now cert.now) }
{
    for place in 0..cert.pairs.len() {
        let pair = cert.pairs.item(place);
        let claim = claim_of(claims, pair.number);
        if let Err(fault) = prove_claim(alloc, design, cert.kept.as_slice(), claim, &pair.proof) {
            return Err(at_pair(pair.number, fault));
        }
    }
    Ok(())
}

/// The fault of a derivation of the kept clause at a place.
fn at_clause(place: usize, fault: CheckFault) -> CertFault
    ensures { result ≡ clause_fault place fault }
{
    match fault {
        CheckFault::Memory => CertFault::Memory,
        _ => CertFault::Invariant(place, fault),
    }
}

/// The fault of a derivation of the pair of a number.
fn at_pair(number: u64, fault: CheckFault) -> CertFault
    ensures { result ≡ pair_fault number fault }
{
    match fault {
        CheckFault::Memory => CertFault::Memory,
        _ => CertFault::Pair(number, fault),
    }
}
