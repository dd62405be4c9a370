//! A line more.
ghost use Rattle.std.specs.Prelude.{◌≡◌, ◌∷◌, [], ◌++◌, OnOk, string_bytes};
ghost use Rattle.witness_replay.specs.StimulusTexts.{line_of};
ghost use Rattle.report_text.specs.Reports.{bytes_of_lines};

use std::alloc::AllocError;

/// Adds the line of a text.
pub(crate) fn add_line(text: String, lines: &mut Vec<Vec<u8>>) -> Result<(), AllocError>
    ensures { OnOk result (bytes_of_lines lines.new.items ≡ bytes_of_lines lines.old.items ++ line_of (string_bytes text) ∷ []) }
{
    let mut line = text.into_bytes();
    line.push(b'\n')?;
    lines.push(line)?;
    Ok(())
}
