//! What the pairs of one group have in common.
ghost use Rattle.std.specs.Prelude.{◌≡◌, IfOk, map, string_bytes};
ghost use Rattle.report_groups.specs.Groups as spec;

use crate::stars::starred;
use report_rows::{PairRow, Word};
use sdcv_base::Name;
use std::alloc::{AllocError, Global};

/// A verdict's word.
pub(crate) fn verdict_text(verdict: Word) -> &'static str
    ensures { result.now ≡ spec.verdict_text verdict }
{
    match verdict {
        Word::Justified => "justified",
        Word::Refuted => "refuted",
        Word::Undecided => "undecided",
    }
}

/// From where to where.
pub(crate) fn ends_text(alloc: Global, row: &PairRow) -> Result<String, AllocError>
    ensures { IfOk result (λ text. string_bytes text ≡ spec.ends_text row.now) }
{
    let start = &row.start;
    let end = &row.end;
    format!(in alloc; "{start} -> {end}")
}

/// What is found out, and of which exception.
pub(crate) fn found_text(alloc: Global, row: &PairRow) -> Result<String, AllocError>
    ensures { IfOk result (λ text. string_bytes text ≡ spec.found_text row.now) }
{
    let verdict = verdict_text(row.verdict);
    let why = &row.why;
    let command = row.command;
    let kind = &row.kind;
    format!(in alloc; "{verdict} {why} command {command} {kind}")
}

fn key_text(alloc: Global, row: &PairRow) -> Result<String, AllocError>
    ensures { IfOk result (λ text. string_bytes text ≡ spec.key_of row.now) }
{
    let ends = ends_text(alloc, row)?;
    let found = found_text(alloc, row)?;
    format!(in alloc; "{ends} {found}")
}

/// The key of a row.
pub(crate) fn key_of(alloc: Global, row: &PairRow) -> Result<Name, AllocError>
    ensures { IfOk result (λ key. key ≡ spec.key_of row.now) }
{
    let text = key_text(alloc, row)?;
    Name::new(alloc, text.as_bytes())
}

/// The key of each row.
pub(crate) fn keys_of(alloc: Global, rows: &[PairRow]) -> Result<Vec<Name>, AllocError>
    ensures { IfOk result (λ keys. keys.items ≡ map spec.key_of rows.now) }
{
    let mut keys = Vec::new(alloc);
    for row in rows {
        keys.push(key_of(alloc, row)?)?;
    }
    Ok(keys)
}

// The row with another start and end.
fn row_with(alloc: Global, row: &PairRow, start: Name, end: Name) -> Result<PairRow, AllocError>
    ensures { IfOk result (λ r. r ≡ record row.now { start = start; end = end }) }
{
    Ok(PairRow {
        number: row.number,
        command: row.command,
        kind: row.kind.copy(alloc)?,
        start,
        end,
        verdict: row.verdict,
        why: row.why.copy(alloc)?,
    })
}

/// An equal row.
pub(crate) fn copy_row(alloc: Global, row: &PairRow) -> Result<PairRow, AllocError>
    ensures { IfOk result (λ r. r ≡ row.now) }
{
    row_with(alloc, row, row.start.copy(alloc)?, row.end.copy(alloc)?)
}

/// Each row without the indices of its start and its end.
pub(crate) fn starred_rows(alloc: Global, rows: &[PairRow]) -> Result<Vec<PairRow>, AllocError>
    ensures { IfOk result (λ all. all.items ≡ map spec.starred_row rows.now) }
{
    let mut all = Vec::new(alloc);
    for row in rows {
        let start = starred(alloc, &row.start)?;
        let end = starred(alloc, &row.end)?;
        all.push(row_with(alloc, row, start, end)?)?;
    }
    Ok(all)
}
