//! The pairs of a certificate, and its end.
ghost use Rattle.std.specs.Prelude.{◌≡◌, ◌+◌, ◌++◌, length, IfOk, IfErr, OnOk};
ghost use Rattle.std.specs.List.{AllByRecursion};
ghost use Rattle.sdcv_base.specs.Cursors.{rest, place_of};
ghost use Rattle.cert_lines.specs.Texts.{IsFault};
ghost use Rattle.cert_text.specs.Certs.{IsPair, pairs_text, next_text, IsNext};

use crate::proofs_at::take_proof;
use cert_lines::{Fault, Section, take_section};
use cert_values::PairProof;
use sdcv_base::{Cursor, Seq};
use std::alloc::Global;
use verdict_types::{InvProof, Proof};

/// Passes a pair; or the last line, which is `None`.
fn take_pair(alloc: Global, cursor: &mut Cursor<'_>) -> Result<Option<PairProof>, Fault>
    ensures ok { IfOk result (λ v. IsNext v × (rest cursor.old ≡ next_text v ++ rest cursor.new)) }
    ensures place { OnOk result (place_of cursor.new + length (rest cursor.new) ≡ place_of cursor.old + length (rest cursor.old)) }
    ensures err { IfErr result (IsFault IsNext next_text (rest cursor.old) (place_of cursor.old)) }
{
    match take_section(cursor)? {
        Section::End => Ok(None),
        Section::Single(number) => Ok(Some(PairProof {
            number,
            proof: Proof::Single,
        })),
        Section::Fixed(number) => Ok(Some(PairProof {
            number,
            proof: Proof::Fixed,
        })),
        Section::Depth(number, depth) => {
            let InvProof { base, step } = take_proof(alloc, cursor, depth)?;
            Ok(Some(PairProof {
                number,
                proof: Proof::Depth { depth, base, step },
            }))
        }
    }
}

/// Passes the pairs and the last line.
pub fn take_pairs(alloc: Global, cursor: &mut Cursor<'_>) -> Result<Seq<PairProof>, Fault>
    ensures ok { IfOk result (λ v. AllByRecursion IsPair v × (rest cursor.old ≡ pairs_text v ++ rest cursor.new)) }
    ensures place { OnOk result (place_of cursor.new + length (rest cursor.new) ≡ place_of cursor.old + length (rest cursor.old)) }
    ensures err { IfErr result (IsFault (AllByRecursion IsPair) pairs_text (rest cursor.old) (place_of cursor.old)) }
{
    let mut pairs = Seq::new(alloc);
    while let Some(pair) = take_pair(alloc, cursor)? {
        pairs.push(pair)?;
    }
    Ok(pairs)
}
