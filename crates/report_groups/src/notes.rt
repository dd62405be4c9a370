//! What is told of the exceptions apart from their pairs.
ghost use Rattle.std.specs.Prelude.{◌≡◌, ◌++◌, ◌∷◌, [], ⊤, IfOk, OnOk, MatchOption, string_bytes, flat_map};
ghost use Rattle.report_groups.specs.Findings as spec;

use crate::findings::Finding;
use report_rows::{Said, ScriptRow};
use sdcv_base::{Name, Seq};
use std::alloc::{AllocError, Global};

fn is_aside(what: &Name) -> bool
    ensures { result ≡ spec.is_aside what.now }
{
    what.as_bytes().starts_with(b"aside ")
}

fn is_quiet(what: &Name, pairs: u64) -> bool
    ensures { result ≡ spec.is_quiet what.now pairs }
{
    what.as_bytes() == b"hold".as_slice() || pairs > 0
}

/// The text of the note on an exception, where there is one.
pub(crate) fn said_text(alloc: Global, said: &Said) -> Result<Option<String>, AllocError>
    ensures { IfOk result (λ o. MatchOption o (spec.said_texts said.now ≡ []) (λ text. spec.said_texts said.now ≡ string_bytes text ∷ [])) }
{
    match said {
        Said::Warns(text) => Ok(Some(format!(in alloc; "warning {text}")?)),
        Said::Does(what, pairs) => {
            if is_aside(what) {
                Ok(Some(format!(in alloc; "{what}")?))
            } else if is_quiet(what, *pairs) {
                Ok(None)
            } else {
                Ok(Some(format!(in alloc; "{what} selects nothing")?))
            }
        }
    }
}

// Which exception, and at which line of the script.
fn place_text(alloc: Global, row: &ScriptRow) -> Result<String, AllocError>
    ensures { IfOk result (λ text. string_bytes text ≡ spec.place_text row.now) }
{
    let command = row.command;
    let line = row.line;
    format!(in alloc; "command {command} line {line} ")
}

fn placed_text(alloc: Global, row: &ScriptRow, text: &str) -> Result<Name, AllocError>
    ensures { IfOk result (λ n. n ≡ spec.place_text row.now ++ text.now) }
{
    let place = place_text(alloc, row)?;
    let mut out = Vec::from_slice(alloc, place.as_bytes())?;
    out.extend_from_slice(text.as_bytes())?;
    Ok(Name::from_vec(out))
}

// Adds the note on an exception, where there is one.
fn add_note(alloc: Global, row: &ScriptRow, out: &mut Seq<Finding>) -> Result<(), AllocError>
    ensures { OnOk result (out.new ≡ out.old ++ spec.notes_of row.now) }
{
    let Some(text) = said_text(alloc, &row.said)? else {
        return Ok(());
    };
    let note = placed_text(alloc, row, text.as_str())?;
    out.push(Finding::Note(note))?;
    Ok(())
}

/// Adds the notes on the exceptions, or that there is none.
pub(crate) fn add_notes(
    alloc: Global,
    rows: &[ScriptRow],
    out: &mut Seq<Finding>,
) -> Result<(), AllocError>
    ensures { OnOk result (out.new ≡ out.old ++ spec.all_notes rows.now) }
{
    if rows.is_empty() {
        out.push(Finding::NoException)?;
        return Ok(());
    }
    for row in rows {
        add_note(alloc, row, out)?;
    }
    Ok(())
}
