//! The lines of a run that mends a script.
ghost use Rattle.std.specs.Prelude.{◌≡◌, IfOk, string_bytes};
ghost use Rattle.report_text.specs.Reports.{bytes_of_lines};
ghost use Rattle.report_text.specs.Rows.{HasRows};
ghost use Rattle.mended_text.specs.Scenes.{seen_findings};
ghost use Rattle.mended_text.specs.Tellings as spec;

use crate::exceptions::add_exceptions;
use crate::lines::MendLines;
use crate::scenes::Findings;
use crate::totals::total_text;
use mend_groups::Part;
use report_text::{asked_text, mode_text};
use run_options::RunOptions;
use selected_types::Notices;
use std::alloc::{AllocError, Global};

fn header_text(alloc: Global, options: &RunOptions) -> Result<String, AllocError>
    ensures { IfOk result (λ text. string_bytes text ≡ spec.header_text options.now) }
{
    let mode = mode_text(options.hazard);
    let reset = options.reset_len;
    let depth = options.depth;
    let budget = options.budget;
    let inv = options.inv_depth;
    let asked = asked_text(alloc, options)?;
    format!(in alloc;
        "sdcv 1 mend mode {mode} reset {reset} depth {depth} budget {budget} inv {inv}{asked}"
    )
}

/// The lines, each with its newline: the options of the run, what is told of the script beside its exceptions, each exception with what
/// becomes of it, its warnings and its pairs that are not written again, and how many pairs are kept.
pub fn mended_lines(
    alloc: Global,
    options: &RunOptions,
    notices: &Notices,
    findings: &Findings<'_>,
    parts: &[Part],
) -> Result<Vec<Vec<u8>>, AllocError>
    requires { HasRows findings.now.selected.now findings.now.verdicts.now }
    ensures { IfOk result (λ lines. bytes_of_lines lines.items ≡ spec.mended_lines options.now notices.now (seen_findings findings.now) parts.now) }
{
    let mut lines = MendLines::new(alloc);
    lines.add(header_text(alloc, options)?)?;
    lines.add_notices(alloc, notices)?;
    add_exceptions(alloc, findings, parts, &mut lines)?;
    lines.add(total_text(alloc, parts)?)?;
    Ok(lines.into_vec())
}
