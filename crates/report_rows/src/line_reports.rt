//! A report by lines.
ghost use Rattle.std.specs.Prelude.{◌≡◌, ◌+◌, ◌<◌, ◌^◌, IfOk, IfErr, Ok, Err, map};
ghost use Rattle.report_rows.specs.Words.{texts, when};
ghost use Rattle.report_rows.specs.Words as cut;
ghost use Rattle.report_rows.specs.Lines as spec;
ghost use Rattle.report_rows.specs.LineReports.{is_end, with_total, with_lines, of_lines, IsLineFault};

use crate::cuts::{is_word, number_at, pieces, rest_from, words};
use crate::faults::ReportFault;
use crate::heads::head_of;
use crate::netlist_lines::{add_clock, add_cut, add_top};
use crate::pair_lines::add_pair_line;
use crate::reports::Report;
use crate::script_lines::{add_command, add_warning};
use crate::told_lines::{add_note, add_skipped, add_unjudged};
use crate::totals::{Tally, Totalled};
use std::alloc::{AllocError, Global};

fn is_stimulus(words: &[&[u8]]) -> bool
    ensures { result ≡ spec.is_stimulus (texts words.now) }
{
    is_word(words, 0, b"stimulus")
        || is_word(words, 0, b"state")
        || is_word(words, 0, b"input")
        || is_word(words, 0, b"end")
}

// Adds what the line of a warning says; answers whether it is a line of a report.
fn add_any_warning(
    alloc: Global,
    found: &mut Report,
    place: usize,
    words: &[&[u8]],
) -> Result<bool, AllocError>
    ensures { IfOk result (λ fits. when fits found.new ≡ spec.with_any_warning (place + 2) found.old (texts words.now)) }
{
    if is_word(words, 1, b"line") {
        add_unjudged(alloc, found, place, words)
    } else {
        add_warning(alloc, found, words)
    }
}

// Adds what a line on the netlist says, and nothing for one of a stimulus; answers whether it is such a line.
fn add_netlist_line(
    alloc: Global,
    found: &mut Report,
    place: usize,
    words: &[&[u8]],
) -> Result<bool, AllocError>
    ensures { IfOk result (λ fits. when fits found.new ≡ spec.with_netlist_line (place + 2) found.old (texts words.now)) }
{
    if is_word(words, 0, b"top") {
        add_top(alloc, found, place, words)
    } else if is_word(words, 0, b"clock") {
        add_clock(alloc, found, place, words)
    } else if is_word(words, 0, b"cut") {
        add_cut(alloc, found, place, words)
    } else {
        Ok(is_stimulus(words))
    }
}

// Adds what the words of a line say, which is at a place after the first line; answers whether it is a line of a report.
#[tactic(auto, unfolding(crate::specs::Lines::with_line))]
fn add_line(
    alloc: Global,
    found: &mut Report,
    place: usize,
    words: &[&[u8]],
) -> Result<bool, AllocError>
    ensures { IfOk result (λ fits. when fits found.new ≡ spec.with_line (place + 2) found.old (texts words.now)) }
{
    if is_word(words, 0, b"command") {
        add_command(alloc, found, words)
    } else if is_word(words, 0, b"warning") {
        add_any_warning(alloc, found, place, words)
    } else if is_word(words, 0, b"pair") {
        add_pair_line(alloc, found, words)
    } else if is_word(words, 0, b"skipped") {
        add_skipped(alloc, found, place, words)
    } else if is_word(words, 0, b"note") {
        add_note(found, place, words)
    } else {
        add_netlist_line(alloc, found, place, words)
    }
}

fn begins_total(words: &[&[u8]]) -> bool
    ensures { result ≡ spec.begins_total (texts words.now) }
{
    is_word(words, 0, b"total")
}

fn has_totals(words: &[&[u8]]) -> bool
    ensures { result ≡ spec.has_totals (texts words.now) }
{
    begins_total(words)
        && is_word(words, 2, b"justified")
        && is_word(words, 4, b"refuted")
        && is_word(words, 6, b"undecided")
        && words.len() == 8
}

// The totals of the last line.
#[tactic(auto, unfolding(crate::specs::Lines::total_of))]
fn total_of(words: &[&[u8]]) -> Option<Tally>
    ensures { result ≡ spec.total_of (texts words.now) }
{
    if !has_totals(words) {
        return None;
    }
    let pairs = number_at(words, 1)?;
    let justified = number_at(words, 3)?;
    let refuted = number_at(words, 5)?;
    let undecided = number_at(words, 7)?;
    Some(Tally {
        pairs,
        justified,
        refuted,
        undecided,
    })
}

// Whether no text is left.
fn is_end(lines: &[&[u8]]) -> bool
    ensures { result ≡ is_end (texts lines.now) }
{
    match lines {
        [last] => last.is_empty(),
        _ => false,
    }
}

// The rows with the totals that the line of this number gives, after which these lines come.
fn with_total(
    report: Report,
    number: u64,
    words: &[&[u8]],
    others: &[&[u8]],
) -> Result<Totalled, ReportFault>
    requires { number + 1 < 2 ^ 64 }
    ensures ok { IfOk result (λ found. with_total number report (texts words.now) (texts others.now) ≡ Ok found) }
    ensures err { IfErr result (IsLineFault (with_total number report (texts words.now) (texts others.now))) }
{
    let Some(total) = total_of(words) else {
        return Err(ReportFault::Line(number));
    };
    if is_end(others) {
        Ok(Totalled { report, total })
    } else {
        Err(ReportFault::Line(number + 1))
    }
}

// Adds what the lines from the second on say.
fn add_lines(alloc: Global, mut found: Report, lines: &[&[u8]]) -> Result<Totalled, ReportFault>
    ensures ok { IfOk result (λ all. with_lines 2 found (texts lines.now) ≡ Ok all) }
    ensures err { IfErr result (IsLineFault (with_lines 2 found (texts lines.now))) }
{
    for place in 0..lines.len() {
        let others = rest_from(lines, place + 1);
        if others.is_empty() {
            return Err(ReportFault::Ends);
        }
        let words = words(alloc, lines[place])?;
        if begins_total(&words) {
            return with_total(found, place as u64 + 2, &words, others);
        }
        if !add_line(alloc, &mut found, place, &words)? {
            return Err(ReportFault::Line(place as u64 + 2));
        }
    }
    Err(ReportFault::Ends)
}

/// What a text says by its lines.
#[tactic(auto, unfolding(crate::specs::LineReports::of_lines))]
pub(crate) fn read_lines(alloc: Global, text: &[u8]) -> Result<Totalled, ReportFault>
    ensures ok { IfOk result (λ found. of_lines (cut.pieces text.now) ≡ Ok found) }
    ensures err { IfErr result (IsLineFault (of_lines (cut.pieces text.now))) }
{
    let lines = pieces(alloc, text)?;
    let Some((first, others)) = lines.split_first() else {
        return Err(ReportFault::Line(1));
    };
    let first = words(alloc, first)?;
    let Some(head) = head_of(&first) else {
        return Err(ReportFault::Line(1));
    };
    add_lines(alloc, head.report(alloc), others)
}
