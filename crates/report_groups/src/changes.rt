//! The pairs of a report that are not as they were.
ghost use Rattle.std.specs.Prelude.{◌≡◌, ◌++◌, Some, IfOk, OnOk, codes, map, string_bytes};
ghost use Rattle.report_groups.specs.Differences as spec;

use crate::groups::{Group, groups_of};
use crate::keys::{copy_row, ends_text, verdict_text};
use crate::marks::{left_of, mark, marks, ranked};
use report_rows::{PairRow, Word};
use sdcv_base::{Name, Seq};
use std::alloc::{AllocError, Global};
use texts::NameTable;

// A row that is told under a word, and with this as its kind.
fn told_with(alloc: Global, word: &[u8], kind: String, row: &PairRow) -> Result<PairRow, AllocError>
    ensures { IfOk result (λ r. r ≡ spec.told_with word.now (string_bytes kind) row.now) }
{
    let mut row = copy_row(alloc, row)?;
    row.number = 0;
    row.command = 0;
    row.kind = Name::from_vec(kind.into_bytes());
    row.why = Name::new(alloc, word)?;
    Ok(row)
}

// A row that is told under a word.
fn told_as(alloc: Global, word: &[u8], row: &PairRow) -> Result<PairRow, AllocError>
    ensures { IfOk result (λ r. r ≡ spec.told_as word.now row.now) }
{
    let kind = &row.kind;
    let kind = format!(in alloc; "{kind}")?;
    told_with(alloc, word, kind, row)
}

// A pair that has another verdict now.
fn told_now(alloc: Global, verdict: Word, row: &PairRow) -> Result<PairRow, AllocError>
    ensures { IfOk result (λ r. r ≡ spec.told_new row.now (Some verdict)) }
{
    let kind = &row.kind;
    let verdict = verdict_text(verdict);
    let kind = format!(in alloc; "{kind} was {verdict}")?;
    told_with(alloc, b"now", kind, row)
}

// Whether a pair with this verdict has the pair's mark.
fn had(alloc: Global, olds: &NameTable, row: &PairRow, verdict: Word) -> Result<bool, AllocError>
    ensures { IfOk result (λ b. b ≡ spec.had olds.now row.now verdict) }
{
    let mut row = copy_row(alloc, row)?;
    row.verdict = verdict;
    let mark = mark(alloc, true, &row)?;
    Ok(olds.contains(&mark))
}

// The verdict that a pair had.
fn was(alloc: Global, olds: &NameTable, row: &PairRow) -> Result<Option<Word>, AllocError>
    ensures { IfOk result (λ o. o ≡ spec.was olds.now row.now) }
{
    if had(alloc, olds, row, Word::Justified)? {
        return Ok(Some(Word::Justified));
    }
    if had(alloc, olds, row, Word::Refuted)? {
        return Ok(Some(Word::Refuted));
    }
    if had(alloc, olds, row, Word::Undecided)? {
        return Ok(Some(Word::Undecided));
    }
    Ok(None)
}

// A pair that has another verdict now, or is new.
fn told_new(alloc: Global, olds: &NameTable, row: &PairRow) -> Result<PairRow, AllocError>
    ensures { IfOk result (λ r. r ≡ spec.told_new row.now (spec.was olds.now row.now)) }
{
    match was(alloc, olds, row)? {
        Some(verdict) => told_now(alloc, verdict, row),
        None => told_as(alloc, b"new", row),
    }
}

fn add_news(
    alloc: Global,
    olds: &NameTable,
    rows: &[PairRow],
    out: &mut Vec<PairRow>,
) -> Result<(), AllocError>
    ensures { OnOk result (out.new.items ≡ out.old.items ++ map (λ r. spec.told_new r (spec.was olds.now r)) rows.now) }
{
    for row in rows {
        out.push(told_new(alloc, olds, row)?)?;
    }
    Ok(())
}

fn add_gone(alloc: Global, rows: &[PairRow], out: &mut Vec<PairRow>) -> Result<(), AllocError>
    ensures { OnOk result (out.new.items ≡ out.old.items ++ map (spec.told_as (codes "gone")) rows.now) }
{
    for row in rows {
        out.push(told_as(alloc, b"gone", row)?)?;
    }
    Ok(())
}

// The pairs that are left of the new ones and of the old ones.
fn changes_among(
    alloc: Global,
    news: &[PairRow],
    olds: &[PairRow],
) -> Result<Vec<PairRow>, AllocError>
    ensures { IfOk result (λ all. all.items ≡ spec.changes_among news.now olds.now) }
{
    let mut out = Vec::new(alloc);
    let old_rows = ranked(alloc, false, olds)?;
    let table = marks(alloc, true, old_rows.as_slice())?;
    let new_rows = ranked(alloc, false, news)?;
    add_news(alloc, &table, new_rows.as_slice(), &mut out)?;
    let gone = left_of(alloc, false, olds, news)?;
    add_gone(alloc, gone.as_slice(), &mut out)?;
    Ok(out)
}

// The pairs that are not as they were.
fn changes_of(alloc: Global, old: &[PairRow], new: &[PairRow]) -> Result<Vec<PairRow>, AllocError>
    ensures { IfOk result (λ all. all.items ≡ spec.changes_of old.now new.now) }
{
    let news = left_of(alloc, true, new, old)?;
    let olds = left_of(alloc, true, old, new)?;
    changes_among(alloc, news.as_slice(), olds.as_slice())
}

// The line of equal changes.
fn change_text(alloc: Global, group: &Group) -> Result<Name, AllocError>
    ensures { IfOk result (λ n. n ≡ spec.change_text group.now) }
{
    let word = &group.row.why;
    let verdict = verdict_text(group.row.verdict);
    let ends = ends_text(alloc, &group.row)?;
    let pairs = group.pairs;
    let kind = &group.row.kind;
    let text = format!(in alloc; "{word} {verdict} {ends} {pairs} {kind}")?;
    Ok(Name::from_vec(text.into_bytes()))
}

fn add_lines(alloc: Global, groups: &[Group], out: &mut Seq<Name>) -> Result<(), AllocError>
    ensures { OnOk result (out.new ≡ out.old ++ map spec.change_text groups.now) }
{
    for group in groups {
        out.push(change_text(alloc, group)?)?;
    }
    Ok(())
}

/// Adds the lines of the pairs that are not as they were.
pub(crate) fn add_changes(
    alloc: Global,
    old: &[PairRow],
    new: &[PairRow],
    out: &mut Seq<Name>,
) -> Result<(), AllocError>
    ensures { OnOk result (out.new ≡ out.old ++ spec.change_lines old.now new.now) }
{
    let changes = changes_of(alloc, old, new)?;
    let groups = groups_of(alloc, &changes)?;
    add_lines(alloc, groups.as_slice(), out)
}
