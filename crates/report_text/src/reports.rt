//! The call that makes a report.
ghost use Rattle.std.specs.Prelude.{◌≡◌, IfOk, string_bytes};
ghost use Rattle.report_text.specs.Words.{header_text};
ghost use Rattle.report_text.specs.Reports.{bytes_of_lines, report_lines};
ghost use Rattle.report_text.specs.Rows.{HasRows};

use crate::commands::add_commands;
use crate::lines::ReportLines;
use crate::pairs::add_pairs;
use crate::tallies::total_text;
use crate::words::{asked_text, mode_text};
use run_options::RunOptions;
use selected_types::{Notices, Selected};
use std::alloc::{AllocError, Global};
use verdict_types::Verdict;

fn header_text(alloc: Global, options: &RunOptions) -> Result<String, AllocError>
    ensures { IfOk result (λ text. string_bytes text ≡ header_text options.now) }
{
    let mode = mode_text(options.hazard);
    let reset = options.reset_len;
    let depth = options.depth;
    let budget = options.budget;
    let inv = options.inv_depth;
    let asked = asked_text(alloc, options)?;
    format!(in alloc;
        "sdcv 1 mode {mode} reset {reset} depth {depth} budget {budget} inv {inv}{asked}"
    )
}

/// The lines of the report of what is told of a script, its selection and the verdicts, each with the newline that ends it.
pub fn write_report(
    alloc: Global,
    options: &RunOptions,
    notices: &Notices,
    selected: &Selected,
    verdicts: &[Verdict],
) -> Result<Vec<Vec<u8>>, AllocError>
    requires { HasRows selected.now verdicts.now }
    ensures { IfOk result (λ lines. bytes_of_lines lines.items ≡ report_lines options.now notices.now selected.now verdicts.now) }
{
    let mut report = ReportLines::new(alloc);
    report.add(header_text(alloc, options)?)?;
    report.add_notices(alloc, notices)?;
    add_commands(alloc, &selected.commands, &mut report)?;
    add_pairs(alloc, options.depth, selected, verdicts, &mut report)?;
    report.add(total_text(alloc, verdicts)?)?;
    Ok(report.into_vec())
}
