//! What is told of the commands that are not judged.
ghost use Rattle.std.specs.Prelude.{◌≡◌, ◌++◌, IfOk, OnOk, flat_map};
ghost use Rattle.report_groups.specs.Findings as spec;

use crate::findings::Finding;
use report_rows::Told;
use sdcv_base::{Name, Seq};
use std::alloc::{AllocError, Global};

fn unjudged_text(alloc: Global, line: u64, name: &Name) -> Result<Name, AllocError>
    ensures { IfOk result (λ n. n ≡ spec.unjudged_text line name.now) }
{
    let text = format!(in alloc; "line {line} unjudged {name}")?;
    Ok(Name::from_vec(text.into_bytes()))
}

// Adds the note of a row, where it is on a command that is not judged.
fn add_told_note(alloc: Global, row: &Told, out: &mut Seq<Finding>) -> Result<(), AllocError>
    ensures { OnOk result (out.new ≡ out.old ++ spec.told_notes row.now) }
{
    if let Told::Unjudged(line, name) = row {
        out.push(Finding::Note(unjudged_text(alloc, *line, name)?))?;
    }
    Ok(())
}

/// Adds the notes on the commands that are not judged.
pub(crate) fn add_told_notes(
    alloc: Global,
    rows: &[Told],
    out: &mut Seq<Finding>,
) -> Result<(), AllocError>
    ensures { OnOk result (out.new ≡ out.old ++ flat_map spec.told_notes rows.now) }
{
    for row in rows {
        add_told_note(alloc, row, out)?;
    }
    Ok(())
}
