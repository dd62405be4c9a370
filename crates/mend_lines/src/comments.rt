//! The comments about the pairs that are not written again.
ghost use Rattle.std.specs.Prelude.{◌≡◌, ◌+◌, ◌<◌, ◌^◌, ◌++◌, if◌then◌else◌, codes, IfOk, OnOk, Some, string_bytes};
ghost use Rattle.std.specs.List.{flat_map};
ghost use Rattle.mend_lines.specs.Bodies as spec;

use crate::mendings::Mending;
use mend_groups::Row;
use report_text::{ends_text, found_text};
use sdcv_base::Seq;
use selected_types::PairLine;
use std::alloc::{AllocError, Global};
use verdict_types::Verdict;

fn unwritten_text(kept: bool) -> &'static str
    ensures { result.now ≡ spec.unwritten_text kept }
{
    if kept { ", not written" } else { "" }
}

fn side_text(early: bool) -> &'static str
    ensures { result.now ≡ spec.side_text early }
{
    if early { "hold " } else { "" }
}

fn comment_text(
    alloc: Global,
    depth: usize,
    row: &Row,
    pair: &PairLine,
    verdict: &Verdict,
) -> Result<String, AllocError>
    requires { row.now.place + 1 < 2 ^ 64 }
    ensures { IfOk result (λ text. string_bytes text ≡ spec.comment_by depth row.now (Some pair.now) (Some verdict.now)) }
{
    let number = row.place as u64 + 1;
    let side = side_text(row.early);
    let ends = ends_text(alloc, pair)?;
    let found = found_text(alloc, depth, verdict)?;
    let unwritten = unwritten_text(row.kept);
    format!(in alloc; "# pair {number} {side}{ends} {found}{unwritten}\n")
}

// The comment about a pair that is not written again, if there is such a pair.
fn push_found(
    alloc: Global,
    mending: &Mending<'_>,
    row: &Row,
    text: &mut Vec<u8>,
) -> Result<(), AllocError>
    ensures { OnOk result (text.new.items ≡ text.old.items ++
        spec.comment_found mending.now.depth mending.now.selected.now mending.now.verdicts.now row.now) }
{
    let Some(pair) = mending.selected.pairs.as_slice().get(row.place) else {
        return Ok(());
    };
    let Some(verdict) = mending.verdicts.get(row.place) else {
        return Ok(());
    };
    let comment = comment_text(alloc, mending.depth, row, pair, verdict)?;
    text.extend_from_slice(comment.as_bytes())
}

fn push_comment(
    alloc: Global,
    mending: &Mending<'_>,
    row: &Row,
    text: &mut Vec<u8>,
) -> Result<(), AllocError>
    ensures { OnOk result (text.new.items ≡ text.old.items ++
        spec.comment_of mending.now.depth mending.now.selected.now mending.now.verdicts.now row.now) }
{
    if row.written {
        Ok(())
    } else {
        push_found(alloc, mending, row, text)
    }
}

/// Appends a comment for each of these pairs that is not written again.
pub(crate) fn push_comments(
    alloc: Global,
    mending: &Mending<'_>,
    rows: &Seq<Row>,
    text: &mut Vec<u8>,
) -> Result<(), AllocError>
    ensures { OnOk result (text.new.items ≡ text.old.items ++
        flat_map (spec.comment_of mending.now.depth mending.now.selected.now mending.now.verdicts.now) rows.now) }
{
    for place in 0..rows.len() {
        push_comment(alloc, mending, &rows.at(place), text)?;
    }
    Ok(())
}
