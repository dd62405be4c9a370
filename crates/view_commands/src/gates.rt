//! What of a report stops a build, alone and beside what a list accepts.
ghost use Rattle.std.specs.Prelude.{◌≡◌, ◌↔◌, ◌⊎◌, [], IsTrue, IfOk, IfErr, List, Ok, Some, map, string_bytes};
ghost use Rattle.std.specs.Option.{option_map};
ghost use Rattle.accepted_lists.specs.Lists.{listed};
ghost use Rattle.report_groups.specs.Findings.{findings_text};
ghost use Rattle.report_groups.specs.Remarks.{line_remark_text};
ghost use Rattle.report_groups.specs.declared.findings.Finding.{Finding};
ghost use Rattle.view_commands.specs.Gates as spec;
ghost use Rattle.view_commands.specs.Reports.{IsNoReport};

use crate::lines::{list_stop, undated_stop};
use crate::reports::{NamedText, report_in};
use crate::stops::Stop;
use accepted_lists::{Day, ListLine, day_of, last_days, list_on, read_list};
use report_groups::{Gate, LineRemark, line_remark_text, remarks_of};
use report_rows::Report;
use sdcv_base::Seq;
use std::alloc::{AllocError, Global};

/// What of a report stops a build, the status of a program that prints it, and what is to be told beside it.
#[derive(Drop)]
pub struct Gated {
    pub text: Vec<u8>,
    pub status: u8,
    /// A line for each entry of an accepted list that does not accept what it says.
    pub remarks: Seq<String>,
}

fn status_by(passes: bool) -> u8
    ensures { result ≡ spec.status_by passes }
{
    if passes { 0 } else { 1 }
}

// What is printed of a gate, and its status.
fn told_gate(gate: Gate, remarks: Seq<String>) -> Gated
    ensures stops { (stopping : List Finding) → gate.text.items ≡ findings_text stopping
        → (IsTrue gate.passes ↔ (stopping ≡ [])) → spec.IsStoppedBy stopping result }
    ensures remarks { result.remarks ≡ remarks }
{
    let Gate { text, passes } = gate;
    Gated {
        text,
        status: status_by(passes),
        remarks,
    }
}

/// What of a report stops a build. `name` is that of the report's file. The status is 0 where nothing does, and else 1.
pub fn gate(alloc: Global, name: &str, report: &[u8]) -> Result<Gated, Stop>
    ensures ok { IfOk result (spec.IsGate report.now) }
    ensures err { IfErr result (IsNoReport name.now report.now) }
{
    let read = report_in(alloc, name, report)?;
    match report_groups::gate(alloc, &read) {
        Ok(made) => Ok(told_gate(made, Seq::new(alloc))),
        Err(_) => Err(Stop::Memory),
    }
}

// The lines of the list that a text is.
fn lines_in(alloc: Global, accepted: &NamedText<'_>) -> Result<Seq<ListLine>, Stop>
    ensures ok { IfOk result (λ lines. listed accepted.now.text.now ≡ Ok lines) }
    ensures err { IfErr result (spec.IsNoList accepted.now.name.now accepted.now.text.now) }
{
    match read_list(alloc, accepted.text) {
        Ok(lines) => Ok(lines),
        Err(fault) => Err(list_stop(alloc, accepted.name, fault)),
    }
}

// A day is given where a line has a last day.
fn check_dated(
    alloc: Global,
    accepted: &NamedText<'_>,
    today: Option<Day>,
    lines: &[ListLine],
) -> Result<(), Stop>
    requires { listed accepted.now.text.now ≡ Ok lines.now }
    ensures ok { IfOk result (λ _. spec.AreDated today lines.now) }
    ensures err { IfErr result (spec.IsListStop today accepted.now.name.now accepted.now.text.now) }
{
    if today.is_some() {
        return Ok(());
    }
    let days = last_days(alloc, lines)?;
    if days.is_empty() {
        return Ok(());
    }
    Err(undated_stop(alloc, accepted.name, days.at(0)))
}

// The lines of the list that a text is, of which one has a last day only where a day is given.
fn list_in(
    alloc: Global,
    accepted: &NamedText<'_>,
    today: Option<Day>,
) -> Result<Seq<ListLine>, Stop>
    ensures ok { IfOk result (λ lines. listed accepted.now.text.now ≡ Ok lines) }
    ensures dated { IfOk result (spec.AreDated today) }
    ensures err { IfErr result (spec.IsListStop today accepted.now.name.now accepted.now.text.now) }
{
    let lines = lines_in(alloc, accepted)?;
    check_dated(alloc, accepted, today, lines.as_slice())?;
    Ok(lines)
}

fn remark_lines(
    alloc: Global,
    name: &str,
    remarks: &[LineRemark],
) -> Result<Seq<String>, AllocError>
    ensures { IfOk result (λ all. map string_bytes all ≡ map (line_remark_text name.now) remarks.now) }
{
    let mut out = Seq::new(alloc);
    for remark in remarks {
        out.push(line_remark_text(alloc, name, remark)?)?;
    }
    Ok(out)
}

// What stops a build of a report beside what these lines accept on a day.
fn gate_of(
    alloc: Global,
    name: &str,
    today: Option<Day>,
    lines: &[ListLine],
    report: Report,
) -> Result<Gated, AllocError>
    ensures { IfOk result (spec.IsGateOf today name.now lines.now report) }
{
    let found = remarks_of(alloc, today, lines, &report)?;
    let remarks = remark_lines(alloc, name, found.as_slice())?;
    let list = list_on(alloc, today, lines)?;
    let made = report_groups::gate_with(alloc, &list, report)?;
    Ok(told_gate(made, remarks))
}

/// What of a report stops a build beside what a list accepts today. The status is 0 where nothing does, and else 1. A fault of the
/// report comes first; where an entry has a last day, a day must be given.
pub fn gate_with(
    alloc: Global,
    report: &NamedText<'_>,
    accepted: &NamedText<'_>,
    today: Option<Day>,
) -> Result<Gated, Stop>
    ensures ok { IfOk result (spec.IsGateWith today report.now.text.now accepted.now.name.now accepted.now.text.now) }
    ensures err { IfErr result (λ stop. IsNoReport report.now.name.now report.now.text.now stop
        ⊎ spec.IsAcceptedStop today report.now.text.now accepted.now.name.now accepted.now.text.now stop) }
{
    let read = report_in(alloc, report.name, report.text)?;
    let lines = list_in(alloc, accepted, today)?;
    match gate_of(alloc, accepted.name, today, lines.as_slice(), read) {
        Ok(made) => Ok(made),
        Err(_) => Err(Stop::Memory),
    }
}

/// The day that a word is, where there is one.
pub fn today_of(word: Option<&str>) -> Result<Option<Day>, Stop>
    ensures { IfOk result (λ today. spec.today_of (option_map (λ t. t.now) word.entry) ≡ Some today) }
{
    let Some(word) = word else {
        return Ok(None);
    };
    match day_of(word.as_bytes()) {
        Some(day) => Ok(Some(day)),
        None => Err(Stop::Words("--today takes a day of the calendar, as 2027-06-30")),
    }
}
