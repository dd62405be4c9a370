//! What is asked of a certificate before any formula.
ghost use Rattle.std.specs.Prelude.{◌≡◌, ◌↔◌, ℕ, ◌≤◌, ◌<◌, IsTrue, All, MatchOption, IfOk, IfErr, Some, length};
ghost use Rattle.net_model.specs.Netlist.{IsSound};
ghost use Rattle.net_model.specs.Fits.{NamesRegs};
ghost use Rattle.query_model.specs.declared.keys.Coding.{Coding};
ghost use Rattle.cert_values.specs.Certs.{listed_numbers};
ghost use Rattle.cert_defs.specs.Listed.{item_numbered, IsClaimNumber, AreSuited, Suits, IsWellListed};
ghost use Rattle.cert_defs.specs.Accepted.{AreListed};
ghost use Rattle.cert_defs.specs.Refused.{LacksRegister, ListsUnknown, ListsUnsuited, IsCause};
ghost use Rattle.cert_check.specs.Listing.{AreMarksOf, AreMarked, IsTwiceFault};

use cert_values::{Cert, CertFault, PairProof};
use net_model::{Claim, Design, InvClause};
use sdcv_base::Seq;
use std::alloc::{AllocError, Global};
use verdicts::{Proof, is_held_start};

/// Whether each register that the clause names is the design's.
fn names_regs(design: &Design, clause: &InvClause) -> bool
    ensures { IsTrue result ↔ NamesRegs design.now clause.now }
{
    for k in 0..clause.lits.len() {
        if clause.lits.at(k).reg >= design.regs.len() {
            return false;
        }
    }
    true
}

/// The place, from 1, of a kept clause that names a register which the design does not have.
fn unknown_register(design: &Design, kept: &Seq<InvClause>) -> Option<usize>
    ensures { MatchOption result (All (NamesRegs design.now) kept.now) (λ place. LacksRegister design.now kept.now place) }
{
    for place in 0..kept.len() {
        if !names_regs(design, kept.item(place)) {
            return Some(place + 1);
        }
    }
    None
}

/// Whether the number is that of a claim.
fn is_claim_number(claims: &[Claim], number: u64) -> bool
    ensures { IsTrue result ↔ IsClaimNumber claims.now number }
{
    number >= 1 && number <= claims.len() as u64
}

/// A number that is listed and is no claim's.
fn unknown_number(claims: &[Claim], pairs: &Seq<PairProof>) -> Option<u64>
    ensures { MatchOption result
        (All (IsClaimNumber claims.now) (listed_numbers pairs.now))
        (λ number. ListsUnknown claims.now (listed_numbers pairs.now) number) }
{
    for place in 0..pairs.len() {
        let number = pairs.item(place).number;
        if !is_claim_number(claims, number) {
            return Some(number);
        }
    }
    None
}

/// Which claims are listed, by their places. A number that is listed twice is refused.
fn marks_of(alloc: Global, claims: &[Claim], pairs: &Seq<PairProof>) -> Result<Seq<bool>, CertFault>
    requires known { All (IsClaimNumber claims.now) (listed_numbers pairs.now) }
    ensures ok { IfOk result (AreMarksOf (length claims.now) (listed_numbers pairs.now)) }
    ensures err { IfErr result (IsTwiceFault (listed_numbers pairs.now)) }
{
    let mut marks = Seq::filled(alloc, false, claims.len())?;
    for k in 0..pairs.len() {
        let number = pairs.item(k).number;
        let place = (number - 1) as usize;
        if marks.at(place) {
            return Err(CertFault::TwicePair(number));
        }
        marks.put(place, true);
    }
    Ok(marks)
}

/// The numbers of the marked claims, ascending.
fn marked_numbers(alloc: Global, marks: &Seq<bool>) -> Result<Seq<u64>, AllocError>
    ensures { IfOk result (AreMarked marks.now (length marks.now)) }
{
    let mut numbers = Seq::new(alloc);
    for place in 0..marks.len() {
        if marks.at(place) {
            numbers.push(place as u64 + 1)?;
        }
    }
    Ok(numbers)
}

/// The claim of a number.
pub(crate) fn claim_of(claims: &[Claim], number: u64) -> &Claim
    requires { IsClaimNumber claims.now number }
    ensures { item_numbered claims.now number ≡ Some result.now }
{
    &claims[(number - 1) as usize]
}

/// Whether what is told of a claim is of its kind.
fn suits(design: &Design, claim: &Claim, proof: &Proof) -> bool
    ensures { IsTrue result ↔ Suits design.now claim.now proof.now }
{
    let captures = claim.judged_count() != 0;
    match proof {
        Proof::Single => !captures,
        Proof::Fixed => captures && is_held_start(design, &claim.start),
        Proof::Depth { .. } => captures,
    }
}

/// The number of a listed claim, of which something is told that is not of its kind.
fn unsuited_number(design: &Design, claims: &[Claim], pairs: &Seq<PairProof>) -> Option<u64>
    requires known { All (IsClaimNumber claims.now) (listed_numbers pairs.now) }
    ensures { MatchOption result
        (AreSuited design.now claims.now pairs.now)
        (λ number. ListsUnsuited design.now claims.now pairs.now number) }
{
    for place in 0..pairs.len() {
        let pair = pairs.item(place);
        if !suits(design, claim_of(claims, pair.number), &pair.proof) {
            return Some(pair.number);
        }
    }
    None
}

/// The listed numbers, ascending, of a certificate whose registers and claims are there, each claim once and what is told of it of
/// its kind.
pub(crate) fn well_listed(
    alloc: Global,
    design: &Design,
    claims: &[Claim],
    cert: &Cert,
) -> Result<Seq<u64>, CertFault>
    ensures listed { IfOk result (λ _. IsWellListed design.now claims.now cert.now) }
    ensures numbers { IfOk result (AreListed cert.now.pairs) }
    ensures cause { IfErr result (λ e. (coding : Coding) → IsCause coding design.now claims.now cert.now e) }
{
    if let Some(place) = unknown_register(design, &cert.kept) {
        return Err(CertFault::UnknownRegister(place));
    }
    if let Some(number) = unknown_number(claims, &cert.pairs) {
        return Err(CertFault::UnknownPair(number));
    }
    let marks = marks_of(alloc, claims, &cert.pairs)?;
    if let Some(number) = unsuited_number(design, claims, &cert.pairs) {
        return Err(CertFault::NotTrivial(number));
    }
    let numbers = marked_numbers(alloc, &marks)?;
    Ok(numbers)
}
