//! Kept clauses, and the derivations at a depth.
ghost use Rattle.std.specs.Prelude.{◌≡◌, ◌+◌, ◌++◌, length, IfOk, IfErr, OnOk};
ghost use Rattle.sdcv_base.specs.Cursors.{rest, place_of};
ghost use Rattle.net_model.specs.declared.queries.Phase.TheVariants.{Base};
ghost use Rattle.cert_lines.specs.Kinds.{text_of, kept_words, IsKept};
ghost use Rattle.cert_lines.specs.Texts.{AreMany, many_text, IsFault};
ghost use Rattle.cert_lines.specs.Derivations.{derivation_text, IsWritable};
ghost use Rattle.cert_text.specs.Certs.{proof_text, IsProof};

use cert_lines::{Fault, take_derivation, take_kept};
use net_model::{InvClause, Phase};
use proof_log::Derivation;
use sdcv_base::{Cursor, Seq};
use std::alloc::Global;
use verdict_types::InvProof;

/// Passes so many kept clauses, which may be long or not.
pub fn take_clauses(
    alloc: Global,
    cursor: &mut Cursor<'_>,
    count: u64,
    long: bool,
) -> Result<Seq<InvClause>, Fault>
    ensures ok { IfOk result (λ v. AreMany count (IsKept long) v × (rest cursor.old ≡ many_text (text_of kept_words) v ++ rest cursor.new)) }
    ensures place { OnOk result (place_of cursor.new + length (rest cursor.new) ≡ place_of cursor.old + length (rest cursor.old)) }
    ensures err { IfErr result (IsFault (AreMany count (IsKept long)) (many_text (text_of kept_words)) (rest cursor.old) (place_of cursor.old)) }
{
    let mut clauses = Seq::new(alloc);
    for _ in 0..count {
        clauses.push(take_kept(alloc, cursor, long)?)?;
    }
    Ok(clauses)
}

/// Passes so many derivations of base queries.
fn take_bases(
    alloc: Global,
    cursor: &mut Cursor<'_>,
    count: usize,
) -> Result<Seq<Derivation>, Fault>
    ensures ok { IfOk result (λ v. AreMany count IsWritable v × (rest cursor.old ≡ many_text (derivation_text Base) v ++ rest cursor.new)) }
    ensures place { OnOk result (place_of cursor.new + length (rest cursor.new) ≡ place_of cursor.old + length (rest cursor.old)) }
    ensures err { IfErr result (IsFault (AreMany count IsWritable) (many_text (derivation_text Base)) (rest cursor.old) (place_of cursor.old)) }
{
    let mut base = Seq::new(alloc);
    for _ in 0..count {
        base.push(take_derivation(alloc, cursor, Phase::Base)?)?;
    }
    Ok(base)
}

/// Passes the derivations at a depth.
pub fn take_proof(alloc: Global, cursor: &mut Cursor<'_>, depth: usize) -> Result<InvProof, Fault>
    ensures ok { IfOk result (λ v. IsProof depth v × (rest cursor.old ≡ proof_text v ++ rest cursor.new)) }
    ensures place { OnOk result (place_of cursor.new + length (rest cursor.new) ≡ place_of cursor.old + length (rest cursor.old)) }
    ensures err { IfErr result (IsFault (IsProof depth) proof_text (rest cursor.old) (place_of cursor.old)) }
{
    let base = take_bases(alloc, cursor, depth)?;
    let step = take_derivation(alloc, cursor, Phase::Step)?;
    Ok(InvProof { base, step })
}

/// Passes the derivations of so many kept clauses.
pub fn take_proofs(
    alloc: Global,
    cursor: &mut Cursor<'_>,
    count: u64,
    depth: usize,
) -> Result<Seq<InvProof>, Fault>
    ensures ok { IfOk result (λ v. AreMany count (IsProof depth) v × (rest cursor.old ≡ many_text proof_text v ++ rest cursor.new)) }
    ensures place { OnOk result (place_of cursor.new + length (rest cursor.new) ≡ place_of cursor.old + length (rest cursor.old)) }
    ensures err { IfErr result (IsFault (AreMany count (IsProof depth)) (many_text proof_text) (rest cursor.old) (place_of cursor.old)) }
{
    let mut proofs = Seq::new(alloc);
    for _ in 0..count {
        proofs.push(take_proof(alloc, cursor, depth)?)?;
    }
    Ok(proofs)
}
