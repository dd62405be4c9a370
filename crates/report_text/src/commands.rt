//! The lines of the exceptions.
ghost use Rattle.std.specs.Prelude.{◌≡◌, ◌+◌, ◌<◌, ◌^◌, ◌++◌, map, IfOk, OnOk, string_bytes};
ghost use Rattle.sdcv_base.specs.Seqs.{each_at};
ghost use Rattle.witness_replay.specs.StimulusTexts.{line_of};
ghost use Rattle.report_text.specs.Words.{command_text, warning_line};
ghost use Rattle.report_text.specs.Reports.{command_lines};

use crate::lines::ReportLines;
use crate::words::{count_text, warning_text, what_text};
use sdcv_base::Seq;
use selected_types::{CommandLine, Warning};
use std::alloc::{AllocError, Global};

fn command_text(alloc: Global, number: u64, command: &CommandLine) -> Result<String, AllocError>
    ensures { IfOk result (λ text. string_bytes text ≡ command_text number command.now) }
{
    let line = command.line;
    let what = what_text(alloc, &command.listing)?;
    let count = count_text(alloc, &command.listing)?;
    format!(in alloc; "command {number} line {line} {what}{count}")
}

/// A warning of the exception of this number, without its newline.
pub fn warning_line(alloc: Global, number: u64, warning: &Warning) -> Result<String, AllocError>
    ensures { IfOk result (λ text. string_bytes text ≡ warning_line number warning.now) }
{
    let warning = warning_text(alloc, warning)?;
    format!(in alloc; "warning command {number} {warning}")
}

fn add_warnings(
    alloc: Global,
    number: u64,
    warnings: &Seq<Warning>,
    report: &mut ReportLines,
) -> Result<(), AllocError>
    ensures { OnOk result (report.new ≡ report.old ++ map line_of (map (warning_line number) warnings.now)) }
{
    for warning in warnings.as_slice() {
        report.add(warning_line(alloc, number, warning)?)?;
    }
    Ok(())
}

// Adds the lines of the exception at a place.
fn add_command(
    alloc: Global,
    place: usize,
    command: &CommandLine,
    report: &mut ReportLines,
) -> Result<(), AllocError>
    requires { place + 1 < 2 ^ 64 }
    ensures { OnOk result (report.new ≡ report.old ++ command_lines place command.now) }
{
    let number = place as u64 + 1;
    report.add(command_text(alloc, number, command)?)?;
    add_warnings(alloc, number, &command.warnings, report)
}

/// Adds the lines of all exceptions.
pub(crate) fn add_commands(
    alloc: Global,
    commands: &Seq<CommandLine>,
    report: &mut ReportLines,
) -> Result<(), AllocError>
    ensures { OnOk result (report.new ≡ report.old ++ each_at command_lines 0 commands.now) }
{
    for k in 0..commands.len() {
        add_command(alloc, k, commands.item(k), report)?;
    }
    Ok(())
}
