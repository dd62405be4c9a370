//! How a report differs from an older one.
ghost use Rattle.std.specs.Prelude.{◌≡◌, ◌++◌, IfOk, OnOk, map};
ghost use Rattle.report_groups.specs.Differences as spec;

use crate::changes::add_changes;
use crate::head_texts::add_heads;
use crate::marks::left_of;
use crate::note_rows::note_rows;
use report_rows::{PairRow, Report};
use sdcv_base::{Name, Seq};
use std::alloc::{AllocError, Global};

fn note_line(alloc: Global, word: &str, row: &PairRow) -> Result<Name, AllocError>
    ensures { IfOk result (λ n. n ≡ spec.note_line word.now row.now) }
{
    let words = &row.kind;
    let text = format!(in alloc; "{word} note {words}")?;
    Ok(Name::from_vec(text.into_bytes()))
}

fn add_lines(
    alloc: Global,
    word: &str,
    rows: &[PairRow],
    out: &mut Seq<Name>,
) -> Result<(), AllocError>
    ensures { OnOk result (out.new ≡ out.old ++ map (spec.note_line word.now) rows.now) }
{
    for row in rows {
        out.push(note_line(alloc, word, row)?)?;
    }
    Ok(())
}

// Adds the lines of the notes that none of the others cancels.
fn add_notes(
    alloc: Global,
    word: &str,
    rows: &[PairRow],
    others: &[PairRow],
    out: &mut Seq<Name>,
) -> Result<(), AllocError>
    ensures { OnOk result (out.new ≡ out.old ++ spec.note_lines word.now rows.now others.now) }
{
    let left = left_of(alloc, false, rows, others)?;
    add_lines(alloc, word, left.as_slice(), out)
}

// Adds the lines of the notes that are new, and of those that are gone.
fn add_all_notes(
    alloc: Global,
    old: &Report,
    new: &Report,
    out: &mut Seq<Name>,
) -> Result<(), AllocError>
    ensures { OnOk result (out.new ≡ out.old ++ spec.notes_lines old.now new.now) }
{
    let olds = note_rows(alloc, old)?;
    let news = note_rows(alloc, new)?;
    add_notes(alloc, "new", news.as_slice(), olds.as_slice(), out)?;
    add_notes(alloc, "gone", olds.as_slice(), news.as_slice(), out)
}

/// How a report differs from an older one, in lines: its first line, then its pairs, and then the notes on its script.
///
/// Pairs are told apart by start, end and kind. Of equal ones those of one verdict cancel each other, and the rest is matched in
/// its order: such a pair is `now` what it was not, and what is not matched is `new` or `gone`.
pub fn difference_lines(alloc: Global, old: &Report, new: &Report) -> Result<Seq<Name>, AllocError>
    ensures { IfOk result (λ lines. lines ≡ spec.differences old.now new.now) }
{
    let mut out = Seq::new(alloc);
    add_heads(alloc, &old.head, &new.head, &mut out)?;
    add_changes(alloc, old.pairs.as_slice(), new.pairs.as_slice(), &mut out)?;
    add_all_notes(alloc, old, new, &mut out)?;
    Ok(out)
}

/// A line for each difference.
pub fn differences_text(alloc: Global, old: &Report, new: &Report) -> Result<Vec<u8>, AllocError>
    ensures { IfOk result (λ text. text.items ≡ spec.differences_text old.now new.now) }
{
    let lines = difference_lines(alloc, old, new)?;
    let mut out = Vec::new(alloc);
    for line in lines.as_slice() {
        out.extend_from_slice(line.as_bytes())?;
        out.push(b'\n')?;
    }
    Ok(out)
}
