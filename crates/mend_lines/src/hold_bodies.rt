//! What stands in the place of a `-hold` command.
ghost use Rattle.std.specs.Prelude.{◌≡◌, IfOk, string_bytes};
ghost use Rattle.mend_lines.specs.Bodies as spec;
ghost use Rattle.mend_lines.specs.Holds.{hold_fate as fate};

use crate::fates::{HoldFate, hold_fate};
use crate::joins::push_lines;
use crate::lines::{Terms, lines_after};
use crate::mendings::Mending;
use script_types::Held;
use sdcv_base::{Name, Seq};
use std::alloc::{AllocError, Global};

/// `None` where the command stays.
pub(crate) fn hold_body(
    alloc: Global,
    mending: &Mending<'_>,
    number: u64,
    held: &Held,
) -> Result<Option<Name>, AllocError>
    ensures { IfOk result (λ body. body ≡
        spec.hold_body mending.now.selected.now mending.now.parts.now number held.now
        (fate mending.now.script.now mending.now.parts.now held.now)) }
{
    match hold_fate(mending.script, mending.parts, held) {
        HoldFate::Stays => Ok(None),
        HoldFate::Follows(place) => {
            let body = followed(alloc, mending, number, held, place)?;
            Ok(Some(Name::from_vec(body)))
        }
        HoldFate::LeftOut => {
            let body = left_out(alloc, number)?.into_bytes();
            Ok(Some(Name::from_vec(body)))
        }
    }
}

fn left_out(alloc: Global, number: u64) -> Result<String, AllocError>
    ensures { IfOk result (λ text. string_bytes text ≡ spec.left_out_text number) }
{
    format!(in alloc; "# sdcv: command {number} left out, no multicycle path has its lists\n")
}

fn followed_head(alloc: Global, number: u64) -> Result<String, AllocError>
    ensures { IfOk result (λ text. string_bytes text ≡ spec.followed_text number) }
{
    format!(in alloc; "# sdcv: command {number} with the multicycle path of its lists\n")
}

fn followed(
    alloc: Global,
    mending: &Mending<'_>,
    number: u64,
    held: &Held,
    place: usize,
) -> Result<Vec<u8>, AllocError>
    ensures { IfOk result (λ body. body.items ≡
        spec.followed_body mending.now.selected.now mending.now.parts.now number held.now place) }
{
    let lines = hold_lines(alloc, mending, held, place)?;
    let mut body = followed_head(alloc, number)?.into_bytes();
    push_lines(&mut body, &lines)?;
    Ok(body)
}

fn hold_lines(
    alloc: Global,
    mending: &Mending<'_>,
    held: &Held,
    place: usize,
) -> Result<Seq<Name>, AllocError>
    ensures { IfOk result (λ lines. lines ≡ spec.hold_lines mending.now.selected.now mending.now.parts.now held.now place) }
{
    let Some(part) = mending.parts.get(place) else {
        return Ok(Seq::new(alloc));
    };
    let head = hold_head(alloc, number_text(held))?;
    let terms = Terms {
        head: head.as_slice(),
        pairs: &mending.selected.pairs,
        through: &held.through,
    };
    lines_after(alloc, &terms, &part.groups)
}

fn number_text(held: &Held) -> &[u8]
    ensures { result.now ≡ spec.number_text held.now }
{
    match &held.number {
        Some(number) => number.as_bytes(),
        None => &[],
    }
}

fn hold_head(alloc: Global, number: &[u8]) -> Result<Vec<u8>, AllocError>
    ensures { IfOk result (λ head. head.items ≡ spec.hold_head number.now) }
{
    let mut head = Vec::from_slice(alloc, b"set_multicycle_path ")?;
    head.extend_from_slice(number)?;
    head.extend_from_slice(b" -hold")?;
    Ok(head)
}
