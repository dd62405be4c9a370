//! Which rows of two lists cancel each other.
ghost use Rattle.std.specs.Prelude.{◌≡◌, IfOk, string_bytes};
ghost use Rattle.report_groups.specs.Marks as spec;

use crate::counts::Counts;
use crate::keys::{copy_row, ends_text, verdict_text};
use report_rows::PairRow;
use sdcv_base::{Name, Seq};
use std::alloc::{AllocError, Global};
use texts::NameTable;

// What equal rows have in common, where their verdicts count or don't.
fn alike_text(alloc: Global, verdicts: bool, row: &PairRow) -> Result<String, AllocError>
    ensures { IfOk result (λ text. string_bytes text ≡ spec.alike_text verdicts row.now) }
{
    let ends = ends_text(alloc, row)?;
    let kind = &row.kind;
    if verdicts {
        let verdict = verdict_text(row.verdict);
        format!(in alloc; "{ends} {kind} {verdict}")
    } else {
        format!(in alloc; "{ends} {kind}")
    }
}

fn alike_name(alloc: Global, verdicts: bool, row: &PairRow) -> Result<Name, AllocError>
    ensures { IfOk result (λ name. name ≡ spec.alike_text verdicts row.now) }
{
    let text = alike_text(alloc, verdicts, row)?;
    Ok(Name::from_vec(text.into_bytes()))
}

// The row with another number.
fn with_number(alloc: Global, row: &PairRow, number: u64) -> Result<PairRow, AllocError>
    ensures { IfOk result (λ r. r ≡ record row.now { number = number }) }
{
    let mut row = copy_row(alloc, row)?;
    row.number = number;
    Ok(row)
}

/// Each row with how many equal ones stand before it as its number.
pub(crate) fn ranked(
    alloc: Global,
    verdicts: bool,
    rows: &[PairRow],
) -> Result<Seq<PairRow>, AllocError>
    ensures { IfOk result (λ all. all ≡ spec.ranked verdicts rows.now) }
{
    let mut counts = Counts::new(alloc);
    let mut all = Seq::new(alloc);
    for row in rows {
        let key = alike_name(alloc, verdicts, row)?;
        all.push(with_number(alloc, row, counts.count(&key))?)?;
        counts.add(alloc, &key)?;
    }
    Ok(all)
}

/// What tells a row that has its rank apart from all others of its list.
pub(crate) fn mark(alloc: Global, verdicts: bool, row: &PairRow) -> Result<Name, AllocError>
    ensures { IfOk result (λ name. name ≡ spec.mark verdicts row.now) }
{
    let alike = alike_text(alloc, verdicts, row)?;
    let rank = row.number;
    let text = format!(in alloc; "{rank} {alike}")?;
    Ok(Name::from_vec(text.into_bytes()))
}

/// The marks of rows that have their ranks.
pub(crate) fn marks(
    alloc: Global,
    verdicts: bool,
    rows: &[PairRow],
) -> Result<NameTable, AllocError>
    ensures { IfOk result (λ table. table ≡ spec.marks verdicts rows.now) }
{
    let mut table = NameTable::new(alloc);
    for row in rows {
        let mark = mark(alloc, verdicts, row)?;
        table.add(alloc, &mark)?;
    }
    Ok(table)
}

// The rows with none of these marks.
fn unmarked(
    alloc: Global,
    verdicts: bool,
    rows: Seq<PairRow>,
    table: &NameTable,
) -> Result<Seq<PairRow>, AllocError>
    ensures { IfOk result (λ all. all ≡ spec.unmarked verdicts rows table.now) }
{
    let mut all = Seq::new(alloc);
    for row in rows.into_vec() {
        let mark = mark(alloc, verdicts, &row)?;
        if !table.contains(&mark) {
            all.push(row)?;
        }
    }
    Ok(all)
}

/// The rows, with their ranks, that none of the others cancels.
pub(crate) fn left_of(
    alloc: Global,
    verdicts: bool,
    rows: &[PairRow],
    others: &[PairRow],
) -> Result<Seq<PairRow>, AllocError>
    ensures { IfOk result (λ all. all ≡ spec.left_of verdicts rows.now others.now) }
{
    let others = ranked(alloc, verdicts, others)?;
    let table = marks(alloc, verdicts, others.as_slice())?;
    unmarked(alloc, verdicts, ranked(alloc, verdicts, rows)?, &table)
}
