//! The report, as lines or as JSON.
ghost use Rattle.std.specs.Prelude.{◌≡◌, IfOk};
ghost use Rattle.report_text.specs.Reports as text;
ghost use Rattle.report_text.specs.Rows.{HasRows};
ghost use Rattle.report_json.specs.Reports.{json_text};
ghost use Rattle.judgements.specs.Reports.{joined, report_bytes};

use report_json::write_json;
use report_text::write_report;
use run_options::RunOptions;
use selected_types::{Notices, Selected};
use std::alloc::{AllocError, Global};
use verdicts::Verdict;

/// The lines of the report of what is told of a script, its selection and the verdicts, each with the newline that ends it. JSON
/// is one line.
pub fn report(
    alloc: Global,
    options: &RunOptions,
    notices: &Notices,
    selected: &Selected,
    verdicts: &[Verdict],
    json: bool,
) -> Result<Vec<Vec<u8>>, AllocError>
    requires { HasRows selected.now verdicts.now }
    ensures { IfOk result (λ lines. joined lines.items ≡ report_bytes json options.now notices.now selected.now verdicts.now) }
{
    if json {
        json_line(alloc, options, notices, selected, verdicts)
    } else {
        text_lines(alloc, options, notices, selected, verdicts)
    }
}

fn json_line(
    alloc: Global,
    options: &RunOptions,
    notices: &Notices,
    selected: &Selected,
    verdicts: &[Verdict],
) -> Result<Vec<Vec<u8>>, AllocError>
    requires { HasRows selected.now verdicts.now }
    ensures { IfOk result (λ lines. joined lines.items ≡ json_text options.now notices.now selected.now verdicts.now) }
{
    let mut lines = Vec::new(alloc);
    lines.push(write_json(alloc, options, notices, selected, verdicts)?)?;
    Ok(lines)
}

fn text_lines(
    alloc: Global,
    options: &RunOptions,
    notices: &Notices,
    selected: &Selected,
    verdicts: &[Verdict],
) -> Result<Vec<Vec<u8>>, AllocError>
    requires { HasRows selected.now verdicts.now }
    ensures { IfOk result (λ lines. joined lines.items ≡ text.report_bytes options.now notices.now selected.now verdicts.now) }
{
    write_report(alloc, options, notices, selected, verdicts)
}
