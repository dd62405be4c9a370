//! The notes of a report without their places.
ghost use Rattle.std.specs.Prelude.{◌≡◌, ◌++◌, IfOk, OnOk, flat_map};
ghost use Rattle.report_groups.specs.Differences as spec;

use crate::notes::said_text;
use report_rows::{PairRow, Report, ScriptRow, Told, Word};
use sdcv_base::{Name, Seq};
use std::alloc::{AllocError, Global};

// A note as a row whose kind it is.
fn note_row(alloc: Global, words: Name) -> PairRow
    ensures { result ≡ spec.note_row words }
{
    PairRow {
        number: 0,
        command: 0,
        kind: words,
        start: Name::from_vec(Vec::new(alloc)),
        end: Name::from_vec(Vec::new(alloc)),
        verdict: Word::Undecided,
        why: Name::from_vec(Vec::new(alloc)),
    }
}

fn add_said(alloc: Global, row: &ScriptRow, out: &mut Seq<PairRow>) -> Result<(), AllocError>
    ensures { OnOk result (out.new ≡ out.old ++ spec.said_rows row.now) }
{
    if let Some(text) = said_text(alloc, &row.said)? {
        out.push(note_row(alloc, Name::from_vec(text.into_bytes())))?;
    }
    Ok(())
}

// The row of a command that is not judged.
fn unjudged_row(alloc: Global, name: &Name) -> Result<PairRow, AllocError>
    ensures { IfOk result (λ r. r ≡ spec.unjudged_row name.now) }
{
    let text = format!(in alloc; "unjudged {name}")?;
    Ok(note_row(alloc, Name::from_vec(text.into_bytes())))
}

// The row of a script without an exception.
fn none_row(alloc: Global) -> Result<PairRow, AllocError>
    ensures { IfOk result (λ r. r ≡ spec.none_row) }
{
    let words = Name::new(alloc, b"no exception")?;
    Ok(note_row(alloc, words))
}

fn add_told(alloc: Global, row: &Told, out: &mut Seq<PairRow>) -> Result<(), AllocError>
    ensures { OnOk result (out.new ≡ out.old ++ spec.told_rows row.now) }
{
    if let Told::Unjudged(_, name) = row {
        let row = unjudged_row(alloc, name)?;
        out.push(row)?;
    }
    Ok(())
}

fn add_all_told(alloc: Global, rows: &[Told], out: &mut Seq<PairRow>) -> Result<(), AllocError>
    ensures { OnOk result (out.new ≡ out.old ++ flat_map spec.told_rows rows.now) }
{
    for row in rows {
        add_told(alloc, row, out)?;
    }
    Ok(())
}

fn add_script(alloc: Global, rows: &[ScriptRow], out: &mut Seq<PairRow>) -> Result<(), AllocError>
    ensures { OnOk result (out.new ≡ out.old ++ spec.script_rows rows.now) }
{
    if rows.is_empty() {
        let row = none_row(alloc)?;
        out.push(row)?;
        return Ok(());
    }
    for row in rows {
        add_said(alloc, row, out)?;
    }
    Ok(())
}

/// The notes of a report without their places.
pub(crate) fn note_rows(alloc: Global, report: &Report) -> Result<Seq<PairRow>, AllocError>
    ensures { IfOk result (λ all. all ≡ spec.note_rows report.now) }
{
    let mut out = Seq::new(alloc);
    add_all_told(alloc, report.told.as_slice(), &mut out)?;
    add_script(alloc, report.script.as_slice(), &mut out)?;
    Ok(out)
}
