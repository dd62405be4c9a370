//! A certificate, read.
ghost use Rattle.std.specs.Prelude.{◌≡◌, ◌↔◌, ◌+◌, ◌++◌, ℕ, length, IfOk, IfErr, OnOk, IsTrue, MatchOption};
ghost use Rattle.sdcv_base.specs.Cursors.{rest, place_of};
ghost use Rattle.cert_values.specs.declared.certs.Cert.{Cert};
ghost use Rattle.cert_lines.specs.Kinds.{IsVersion, is_long};
ghost use Rattle.cert_lines.specs.Texts.{IsFault};
ghost use Rattle.cert_text.specs.Certs.{cert_bytes, IsSpellable, Spells};
ghost use Rattle.cert_text.specs.Causes.{IsOtherVersion, IsReadCause, Recalls};

use crate::pairs::take_pairs;
use crate::proofs_at::{take_clauses, take_proofs};
use cert_lines::{Fault, next_line, take_first, take_inv};
use cert_values::{Cert, CertFault};
use cert_words::number_of;
use sdcv_base::Cursor;
use std::alloc::Global;

/// The greatest number of a version.
const MOST: u64 = 9_223_372_036_854_775_807;

fn is_version(version: u64) -> bool
    ensures { IsTrue result ↔ IsVersion version }
{
    (1..=3).contains(&version)
}

/// Whether clauses may be long in a version.
fn may_be_long(version: u64) -> bool
    ensures { result ≡ is_long version }
{
    version == 3
}

/// The version of the first line, where it is another one.
fn other_version(bytes: &[u8]) -> Option<u64>
    ensures { MatchOption result ((n : ℕ) → ¬ IsOtherVersion bytes.now n) (IsOtherVersion bytes.now) }
{
    let Some(rest) = bytes.strip_prefix(b"sdcv-cert ") else {
        return None;
    };
    let line = next_line(&Cursor::new(rest));
    if line.cut {
        return None;
    }
    let Some(version) = number_of(line.text, MOST) else {
        return None;
    };
    if is_version(version) {
        return None;
    }
    Some(version)
}

/// Passes a certificate.
fn take_cert(alloc: Global, cursor: &mut Cursor<'_>) -> Result<Cert, Fault>
    ensures ok { IfOk result (λ c. IsSpellable c × (rest cursor.old ≡ cert_bytes c ++ rest cursor.new)) }
    ensures place { OnOk result (place_of cursor.new + length (rest cursor.new) ≡ place_of cursor.old + length (rest cursor.old)) }
    ensures err { IfErr result (IsFault IsSpellable cert_bytes (rest cursor.old) (place_of cursor.old)) }
{
    let version = take_first(cursor)?;
    let head = take_inv(cursor)?;
    let kept = take_clauses(alloc, cursor, head.count, may_be_long(version))?;
    let proofs = take_proofs(alloc, cursor, head.count, head.depth)?;
    let pairs = take_pairs(alloc, cursor)?;
    Ok(Cert {
        version,
        depth: head.depth,
        kept,
        proofs,
        pairs,
    })
}

/// The certificate that the bytes spell.
pub fn read_cert(alloc: Global, bytes: &[u8]) -> Result<Cert, CertFault>
    ensures ok { IfOk result (Spells bytes.now) }
    ensures err { IfErr result (IsReadCause bytes.now) }
    ensures only { (c : Cert) → Spells bytes.now c → Recalls result c }
{
    if let Some(version) = other_version(bytes) {
        return Err(CertFault::Version(version));
    }
    let mut cursor = Cursor::new(bytes);
    match take_cert(alloc, &mut cursor) {
        Ok(cert) => {
            if cursor.rest().is_empty() {
                Ok(cert)
            } else {
                Err(CertFault::Form(cursor.place()))
            }
        }
        Err(Fault::Form(offset)) => Err(CertFault::Form(offset)),
        Err(Fault::Memory) => Err(CertFault::Memory),
    }
}
