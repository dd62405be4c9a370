//! What becomes of an exception.
ghost use Rattle.std.specs.Prelude.{◌≡◌, ◌+◌, ◌<◌, ◌^◌, IfOk, count_by, slice_get, string_bytes};
ghost use Rattle.mend_groups.specs.declared.rows.Row.{Row as RowRecord};
ghost use Rattle.mended_text.specs.Scenes.{seen_findings};
ghost use Rattle.mended_text.specs.Tellings.{claiming_text, command_text, fate_text, lines_at, outcome_text, part_text, unasked_text};

use crate::scenes::Findings;
use exception_expand::Ask;
use mend_groups::{Part, Row};
use mend_lines::{HoldFate, hold_fate, is_whole, kept_count, line_count};
use report_text::what_text;
use script_types::What;
use selected_types::CommandLine;
use std::alloc::{AllocError, Global};

/// An exception of a script that is mended: its place among the exceptions, from 0, how it is listed, and what it says.
#[derive(Clone, Copy)]
pub(crate) struct Told<'a> {
    pub findings: &'a Findings<'a>,
    pub parts: &'a [Part],
    pub place: usize,
    pub line: &'a CommandLine,
    pub what: &'a What,
}

#[tactic(auto, using(std::proofs::lemmas::List::Sums::count_by_more_no, std::proofs::lemmas::List::Sums::count_by_more_yes))]
fn written_count(rows: &[Row]) -> usize
    ensures { result ≡ count_by (λ (r : RowRecord). r.written) rows.now }
{
    let mut written = 0;
    for row in rows {
        if row.written {
            written += 1;
        }
    }
    written
}

fn part_text(alloc: Global, part: &Part) -> Result<String, AllocError>
    ensures { IfOk result (λ text. string_bytes text ≡ part_text part.now) }
{
    let pairs = part.rows.len();
    if is_whole(part) {
        return format!(in alloc; " pairs {pairs} whole");
    }
    let kept = kept_count(part.rows.as_slice());
    let written = written_count(part.rows.as_slice());
    let lines = line_count(part);
    format!(in alloc; " pairs {pairs} kept {kept} written {written} lines {lines}")
}

// Of an exception that claims something, by its place.
fn claiming_text(alloc: Global, parts: &[Part], place: usize) -> Result<String, AllocError>
    ensures { IfOk result (λ text. string_bytes text ≡ claiming_text (slice_get parts.now place)) }
{
    match parts.get(place) {
        Some(part) => part_text(alloc, part),
        None => Ok(String::new(alloc)),
    }
}

// How many commands the exception at a place becomes.
fn lines_at(parts: &[Part], place: usize) -> u128
    ensures { result ≡ lines_at parts.now place }
{
    match parts.get(place) {
        Some(part) => line_count(part),
        None => 0,
    }
}

// Of a hold command.
fn fate_text(alloc: Global, parts: &[Part], fate: HoldFate) -> Result<String, AllocError>
    ensures { IfOk result (λ text. string_bytes text ≡ fate_text parts.now fate) }
{
    match fate {
        HoldFate::Stays => String::from_str(alloc, " stays"),
        HoldFate::LeftOut => String::from_str(alloc, " left"),
        HoldFate::Follows(place) => {
            let lines = lines_at(parts, place);
            format!(in alloc; " lines {lines}")
        }
    }
}

// Of a command that claims nothing.
fn unasked_text(alloc: Global, told: &Told<'_>) -> Result<String, AllocError>
    ensures { IfOk result (λ text. string_bytes text ≡ unasked_text (seen_findings told.now.findings.now) told.now.parts.now told.now.what.now) }
{
    match told.what {
        What::Hold(held) => {
            let fate = hold_fate(told.findings.script, told.parts, held);
            fate_text(alloc, told.parts, fate)
        }
        _ => Ok(String::new(alloc)),
    }
}

fn outcome_text(alloc: Global, told: &Told<'_>) -> Result<String, AllocError>
    ensures { IfOk result (λ text. string_bytes text
        ≡ outcome_text (seen_findings told.now.findings.now) told.now.parts.now told.now.place told.now.what.now) }
{
    match Ask::of(told.what, told.findings.hold) {
        Some(_) => claiming_text(alloc, told.parts, told.place),
        None => unasked_text(alloc, told),
    }
}

/// The exception as it is listed, with what becomes of it.
pub(crate) fn command_text(alloc: Global, told: &Told<'_>) -> Result<String, AllocError>
    requires { told.now.place + 1 < 2 ^ 64 }
    ensures { IfOk result (λ text. string_bytes text
        ≡ command_text (seen_findings told.now.findings.now) told.now.parts.now told.now.place told.now.line.now told.now.what.now) }
{
    let number = told.place as u64 + 1;
    let line = told.line.line;
    let what = what_text(alloc, &told.line.listing)?;
    let outcome = outcome_text(alloc, told)?;
    format!(in alloc; "command {number} line {line} {what}{outcome}")
}
