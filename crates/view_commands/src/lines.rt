//! Why a report or an accepted list is refused, in a line.
ghost use Rattle.std.specs.Prelude.{◌≡◌, IfOk, string_bytes};
ghost use Rattle.view_commands.specs.Gates as gates;
ghost use Rattle.view_commands.specs.Reports as reports;
ghost use Rattle.view_commands.specs.Lines as spec;

use crate::stops::Stop;
use crate::words::PairWords;
use accepted_lists::{LastDay, ListFault};
use report_groups::pairs_word;
use report_rows::ReportFault;
use std::alloc::{AllocError, Global};
use witness_replay::{ReplayFault, StimFault};

// The line of a text that is no report.
fn report_line(alloc: Global, name: &str, fault: ReportFault) -> Result<String, AllocError>
    ensures { IfOk result (λ line. spec.IsReportLine name.now fault (string_bytes line)) }
{
    match fault {
        ReportFault::Line(line) => {
            format!(in alloc; "{name}: line {line} is no line of a report")
        }
        ReportFault::Ends => format!(in alloc; "{name} ends before its total"),
        ReportFault::Json => format!(in alloc; "{name}: it is no JSON of a report"),
        ReportFault::Pairs(command, count, says) => {
            let pairs = pairs_word(count);
            format!(in alloc; "{name}: command {command} has {count} {pairs}, it says {says}")
        }
        ReportFault::Total => format!(in alloc; "{name}: its total is not that of its pairs"),
        ReportFault::Memory => Err(AllocError),
    }
}

/// Why nothing is told of a text that is no report. `name` is that of its file.
pub(crate) fn report_stop(alloc: Global, name: &str, fault: ReportFault) -> Stop
    ensures { reports.TellsFault name.now fault result }
{
    match report_line(alloc, name, fault) {
        Ok(line) => Stop::Refused(line),
        Err(_) => Stop::Memory,
    }
}

/// The line of a report without a stimulus of its pair.
pub(crate) fn stimulus_line(
    alloc: Global,
    words: &PairWords<'_>,
    fault: StimFault,
) -> Result<String, AllocError> {
    let PairWords { report, pair } = *words;
    match fault {
        StimFault::NoBlock => format!(in alloc; "{report}: pair {pair} has no stimulus"),
        StimFault::Form(line) => format!(in alloc;
            "{report}: the stimulus of pair {pair} breaks its form at line {line}"
        ),
        StimFault::Memory => Err(AllocError),
    }
}

/// The line of a report of other texts: the stimulus of its pair is none of this design.
pub(crate) fn replay_line(
    alloc: Global,
    words: &PairWords<'_>,
    fault: ReplayFault,
) -> Result<String, AllocError> {
    let PairWords { report, pair } = *words;
    match fault {
        ReplayFault::Shape => format!(in alloc;
            "{report} is of other texts: the stimulus of pair {pair} has other numbers of bits"
        ),
        ReplayFault::NotReset(cycle) => format!(in alloc;
            "{report} is of other texts: in cycle {cycle} of pair {pair} a reset or fixed input has another value"
        ),
        ReplayFault::Memory => Err(AllocError),
    }
}

// The line of a text that is no accepted list.
fn list_line(alloc: Global, name: &str, fault: ListFault) -> Result<String, AllocError>
    ensures { IfOk result (λ line. spec.IsListLine name.now fault (string_bytes line)) }
{
    match fault {
        ListFault::Line(line) => format!(in alloc; "{name}:{line}: no line of an accepted list"),
        ListFault::Memory => Err(AllocError),
    }
}

/// Why a text is held against no list: it is none. `name` is that of its file.
pub(crate) fn list_stop(alloc: Global, name: &str, fault: ListFault) -> Stop
    ensures { gates.TellsFault name.now fault result }
{
    match list_line(alloc, name, fault) {
        Ok(line) => Stop::Refused(line),
        Err(_) => Stop::Memory,
    }
}

// The line of a list with this word as the last day of a line, where no day is given.
fn wanting_line(alloc: Global, name: &str, line: u64, last: &str) -> Result<String, AllocError>
    ensures { IfOk result (λ text. string_bytes text ≡ spec.wanting_line name.now line last.now) }
{
    format!(in alloc; "{name}:{line}: until {last} wants --today")
}

fn undated_line(alloc: Global, name: &str, first: LastDay) -> Result<String, AllocError>
    ensures { IfOk result (λ line. string_bytes line ≡ spec.undated_line name.now first) }
{
    let LastDay { line, last } = first;
    let day = last.text(alloc)?;
    wanting_line(alloc, name, line, day.as_str())
}

/// Why a report is held against no list: a line of it has a last day, and no day is given.
pub(crate) fn undated_stop(alloc: Global, name: &str, first: LastDay) -> Stop
    ensures { gates.TellsDay name.now first result }
{
    match undated_line(alloc, name, first) {
        Ok(line) => Stop::Refused(line),
        Err(_) => Stop::Memory,
    }
}
