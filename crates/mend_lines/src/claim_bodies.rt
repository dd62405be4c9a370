//! What stands in the place of an exception that claims something.
ghost use Rattle.std.specs.Prelude.{◌≡◌, ◌++◌, IfOk, OnOk, string_bytes};
ghost use Rattle.mend_lines.specs.Bodies as spec;
ghost use Rattle.exception_expand.specs.Asking.{asked_by};
ghost use Rattle.mend_lines.specs.Lines.{lines_by, lines_of};

use crate::comments::push_comments;
use crate::counts::{is_whole, kept_count};
use crate::joins::push_lines;
use crate::lines::{Terms, push_group};
use crate::mendings::Mending;
use crate::words::head_of;
use exception_expand::Ask;
use mend_groups::{Group, Part, Row};
use sdcv_base::{Name, Seq};
use selected_types::PairLine;
use std::alloc::{AllocError, Global};

/// `None` where all pairs are kept.
pub(crate) fn part_body(
    alloc: Global,
    mending: &Mending<'_>,
    number: u64,
    ask: &Ask<'_>,
    part: &Part,
) -> Result<Option<Name>, AllocError>
    ensures { IfOk result (λ body. body ≡
        spec.body_by_part mending.now.depth mending.now.selected.now mending.now.verdicts.now number (asked_by ask.now) part.now) }
{
    if is_whole(part) {
        return Ok(None);
    }
    let body = claim_body(alloc, mending, number, ask, part)?;
    Ok(Some(Name::from_vec(body)))
}

fn claim_body(
    alloc: Global,
    mending: &Mending<'_>,
    number: u64,
    ask: &Ask<'_>,
    part: &Part,
) -> Result<Vec<u8>, AllocError>
    ensures { IfOk result (λ body. body.items ≡
        spec.claim_body mending.now.depth mending.now.selected.now mending.now.verdicts.now number (asked_by ask.now) part.now) }
{
    let lines = lines_of(alloc, &mending.selected.pairs, ask, part)?;
    let mut body = counts_text(alloc, number, &part.rows)?.into_bytes();
    push_comments(alloc, mending, &part.rows, &mut body)?;
    push_lines(&mut body, &lines)?;
    Ok(body)
}

fn counts_text(alloc: Global, number: u64, rows: &Seq<Row>) -> Result<String, AllocError>
    ensures { IfOk result (λ text. string_bytes text ≡ spec.counts_text number rows.now) }
{
    let kept = kept_count(rows.as_slice());
    let all = rows.len();
    format!(in alloc; "# sdcv: command {number} kept {kept} of {all}\n")
}

fn lines_of(
    alloc: Global,
    pairs: &Seq<PairLine>,
    ask: &Ask<'_>,
    part: &Part,
) -> Result<Seq<Name>, AllocError>
    ensures { IfOk result (λ lines. lines ≡ lines_of pairs.now (asked_by ask.now) part.now.groups) }
{
    let mut lines = Seq::new(alloc);
    for place in 0..part.groups.len() {
        push_lines_by(alloc, pairs, ask, part.groups.item(place), &mut lines)?;
    }
    Ok(lines)
}

// Adds the commands of a group.
fn push_lines_by(
    alloc: Global,
    pairs: &Seq<PairLine>,
    ask: &Ask<'_>,
    group: &Group,
    lines: &mut Seq<Name>,
) -> Result<(), AllocError>
    ensures { OnOk result (lines.new ≡ lines.old ++ lines_by pairs.now (asked_by ask.now) group.now) }
{
    let head = head_of(alloc, ask, group)?;
    let terms = Terms {
        head: head.as_bytes(),
        pairs,
        through: ask.through,
    };
    push_group(alloc, &terms, group, lines)
}
