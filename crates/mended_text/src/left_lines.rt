//! The lines of the pairs that are not written again.
ghost use Rattle.std.specs.Prelude.{◌≡◌, ◌+◌, ◌++◌, map, slice_get, IfOk, OnOk, MatchOption, string_bytes};
ghost use Rattle.std.specs.List.{flat_map};
ghost use Rattle.witness_replay.specs.StimulusTexts.{line_of};
ghost use Rattle.report_text.specs.Rows.{HasRows};
ghost use Rattle.mended_text.specs.Scenes.{seen_findings};
ghost use Rattle.mended_text.specs.Tellings.{left_of, left_rows, left_text, parted_rows};

use crate::lines::MendLines;
use crate::outcomes::Told;
use crate::scenes::Findings;
use mend_groups::{Part, Row};
use mend_lines::is_whole;
use report_text::{PairRow, claim_text, ends_text, found_text, row_at};
use std::alloc::{AllocError, Global};

// A pair of a run whose greatest depth is this.
fn left_text(alloc: Global, depth: usize, row: &Row, at: &PairRow<'_>) -> Result<String, AllocError>
    requires { at.now.number ≡ row.now.place + 1 }
    ensures { IfOk result (λ text. string_bytes text ≡ left_text depth row.now at.now.pair.now at.now.claim.now at.now.verdict.now) }
{
    let word = if row.kept { "unwritten" } else { "left" };
    let number = at.number;
    let command = at.pair.command;
    let claim = claim_text(alloc, at.claim)?;
    let ends = ends_text(alloc, at.pair)?;
    let found = found_text(alloc, depth, at.verdict)?;
    format!(in alloc; "{word} {number} command {command} {claim} {ends} {found}")
}

// Adds the line of a pair, if it is not written again.
fn add_left(
    alloc: Global,
    findings: &Findings<'_>,
    row: &Row,
    lines: &mut MendLines,
) -> Result<(), AllocError>
    requires { HasRows findings.now.selected.now findings.now.verdicts.now }
    ensures { OnOk result (lines.new ≡ lines.old ++ map line_of (left_of (seen_findings findings.now) row.now)) }
{
    if row.written {
        return Ok(());
    }
    if row.place >= findings.verdicts.len() {
        return Ok(());
    }
    let at = row_at(findings.selected, findings.verdicts, row.place);
    lines.add(left_text(alloc, findings.depth, row, &at)?)
}

fn add_rows(
    alloc: Global,
    findings: &Findings<'_>,
    rows: &[Row],
    lines: &mut MendLines,
) -> Result<(), AllocError>
    requires { HasRows findings.now.selected.now findings.now.verdicts.now }
    ensures { OnOk result (lines.new ≡ lines.old ++ map line_of (flat_map (left_of (seen_findings findings.now)) rows.now)) }
{
    for row in rows {
        add_left(alloc, findings, row, lines)?;
    }
    Ok(())
}

// Adds the lines of an exception's pairs, if it is not whole.
fn add_part(
    alloc: Global,
    findings: &Findings<'_>,
    part: &Part,
    lines: &mut MendLines,
) -> Result<(), AllocError>
    requires { HasRows findings.now.selected.now findings.now.verdicts.now }
    ensures { OnOk result (lines.new ≡ lines.old ++ map line_of (flat_map (left_of (seen_findings findings.now)) (parted_rows part.now))) }
{
    if is_whole(part) {
        return Ok(());
    }
    add_rows(alloc, findings, part.rows.as_slice(), lines)
}

fn part_at(parts: &[Part], place: usize) -> Option<&Part>
    ensures { MatchOption result (slice_get parts.now place ≡ None) (λ part. slice_get parts.now place ≡ Some part.now) }
{
    parts.get(place)
}

/// Adds the lines of the pairs of an exception that are not written again.
pub(crate) fn add_left_rows(
    alloc: Global,
    told: &Told<'_>,
    lines: &mut MendLines,
) -> Result<(), AllocError>
    requires { HasRows told.now.findings.now.selected.now told.now.findings.now.verdicts.now }
    ensures { OnOk result (lines.new ≡ lines.old
        ++ map line_of (flat_map (left_of (seen_findings told.now.findings.now)) (left_rows told.now.parts.now told.now.place))) }
{
    match part_at(told.parts, told.place) {
        Some(part) => add_part(alloc, told.findings, part, lines),
        None => Ok(()),
    }
}
