//! What is told of a report alone.
ghost use Rattle.std.specs.Prelude.{◌≡◌, IfOk, IfErr};
ghost use Rattle.report_rows.specs.Reads.{IsReport};
ghost use Rattle.view_commands.specs.Reports as spec;

use crate::lines::report_stop;
use crate::stops::Stop;
use report_groups::{csv_text, groups_text};
use report_rows::{Report, read_report};
use std::alloc::{AllocError, Global};

/// A report with the text that it was read from.
#[derive(Drop)]
pub struct ReadReport {
    pub text: Vec<u8>,
    pub report: Report,
}

impl ReadReport {
    /// Whether its script was judged as for a sign-off.
    pub fn is_strict(&self) -> bool
        ensures { result ≡ self.now.report.head.asked.strict }
    {
        self.report.head.asked.strict
    }
}

/// The report that a text is. `name` is that of its file.
pub(crate) fn report_in(alloc: Global, name: &str, text: &[u8]) -> Result<Report, Stop>
    ensures ok { IfOk result (IsReport text.now) }
    ensures err { IfErr result (spec.IsNoReport name.now text.now) }
{
    match read_report(alloc, text) {
        Ok(report) => Ok(report),
        Err(fault) => Err(report_stop(alloc, name, fault)),
    }
}

/// The report that a text is, with the text. `name` is that of its file.
pub fn report_of(alloc: Global, name: &str, text: Vec<u8>) -> Result<ReadReport, Stop>
    ensures text { IfOk result (λ read. read.text.items ≡ text.items) }
    ensures report { IfOk result (λ read. IsReport text.items read.report) }
    ensures err { IfErr result (spec.IsNoReport name.now text.items) }
{
    let report = report_in(alloc, name, &text)?;
    Ok(ReadReport { text, report })
}

/// A report by groups, or the groups as comma-separated values. `name` is that of the report's file.
pub fn groups(alloc: Global, name: &str, report: &[u8], csv: bool) -> Result<Vec<u8>, Stop>
    ensures ok { IfOk result (λ text. spec.AreGroups report.now csv text.items) }
    ensures err { IfErr result (spec.IsNoReport name.now report.now) }
{
    let read = report_in(alloc, name, report)?;
    match told(alloc, &read, csv) {
        Ok(text) => Ok(text),
        Err(_) => Err(Stop::Memory),
    }
}

fn told(alloc: Global, report: &Report, csv: bool) -> Result<Vec<u8>, AllocError>
    ensures { IfOk result (λ text. text.items ≡ spec.told_text csv report.now) }
{
    if csv {
        csv_text(alloc, report)
    } else {
        groups_text(alloc, report)
    }
}

/// A text and the name of its file.
#[derive(Clone, Copy)]
pub struct NamedText<'a> {
    pub name: &'a str,
    pub text: &'a [u8],
}
