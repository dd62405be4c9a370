//! The lines of the exceptions.
ghost use Rattle.std.specs.Prelude.{◌≡◌, ◌+◌, ◌<◌, ◌^◌, ◌++◌, map, OnOk};
ghost use Rattle.exception_expand.specs.Selections as selections;
ghost use Rattle.witness_replay.specs.StimulusTexts.{line_of};
ghost use Rattle.report_text.specs.Rows.{HasRows};
ghost use Rattle.report_text.specs.Words.{warning_line};
ghost use Rattle.mended_text.specs.Scenes.{seen_findings};
ghost use Rattle.mended_text.specs.Tellings.{exception_texts, texts_from};

use crate::left_lines::add_left_rows;
use crate::lines::MendLines;
use crate::outcomes::{Told, command_text};
use crate::scenes::Findings;
use mend_groups::Part;
use report_text::warning_line;
use script_types::What;
use std::alloc::{AllocError, Global};

fn is_exception(what: &What) -> bool
    ensures { result ≡ selections.is_exception what.now }
{
    matches!(what, What::Claiming(_) | What::Hold(_) | What::Aside(_))
}

fn add_warnings(alloc: Global, told: &Told<'_>, lines: &mut MendLines) -> Result<(), AllocError>
    requires { told.now.place + 1 < 2 ^ 64 }
    ensures { OnOk result (lines.new ≡ lines.old ++ map line_of (map (warning_line (told.now.place + 1)) told.now.line.now.warnings)) }
{
    let number = told.place as u64 + 1;
    for warning in told.line.warnings.as_slice() {
        lines.add(warning_line(alloc, number, warning)?)?;
    }
    Ok(())
}

fn add_exception(alloc: Global, told: &Told<'_>, lines: &mut MendLines) -> Result<(), AllocError>
    requires place { told.now.place + 1 < 2 ^ 64 }
    requires rows { HasRows told.now.findings.now.selected.now told.now.findings.now.verdicts.now }
    ensures { OnOk result (lines.new ≡ lines.old ++ map line_of (exception_texts (seen_findings told.now.findings.now) told.now.parts.now
        told.now.place told.now.line.now told.now.what.now)) }
{
    lines.add(command_text(alloc, told)?)?;
    add_warnings(alloc, told, lines)?;
    add_left_rows(alloc, told, lines)
}

/// Adds the lines of all exceptions.
pub(crate) fn add_exceptions<'a>(
    alloc: Global,
    findings: &'a Findings<'a>,
    parts: &'a [Part],
    lines: &mut MendLines,
) -> Result<(), AllocError>
    requires { HasRows findings.now.selected.now findings.now.verdicts.now }
    ensures { OnOk result (lines.new ≡ lines.old ++ map line_of (texts_from (seen_findings findings.now) parts.now 0
        findings.now.selected.now.commands findings.now.script.now.commands)) }
{
    let listed = &findings.selected.commands;
    let commands = &findings.script.commands;
    let mut place = 0;
    for k in 0..commands.len() {
        let what = &commands.item(k).what;
        if place < listed.len() && is_exception(what) {
            let told = Told {
                findings,
                parts,
                place,
                line: listed.item(place),
                what,
            };
            add_exception(alloc, &told, lines)?;
            place += 1;
        }
    }
    Ok(())
}
