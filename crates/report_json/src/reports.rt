//! The call that writes a report as JSON.
ghost use Rattle.std.specs.Prelude.{◌≡◌, codes, IfOk, OnOk};
ghost use Rattle.serde_json.specs.Data.{put as with_member};
ghost use Rattle.serde_json.specs.View.{view};
ghost use Rattle.report_text.specs.Rows.{HasRows};
ghost use Rattle.report_json.specs.Objects.{made, with_asked, with_lag};
ghost use Rattle.report_json.specs.Reports.{commands_data, pairs_data, total_data, report_data, json_text};

use crate::commands::commands_value;
use crate::netlists::{put_asked_name, put_cuts};
use crate::notices::{put_holds, put_skipped, put_unjudged};
use crate::objects::Object;
use crate::pairs::pairs_value;
use report_text::{mode_text, tally_of};
use run_options::RunOptions;
use selected_types::{Notices, Selected};
use serde_json::Value;
use std::alloc::{AllocError, Global};
use verdict_types::Verdict;

fn total_value(alloc: Global, verdicts: &[Verdict]) -> Result<Value, AllocError>
    ensures { IfOk result (λ v. view v ≡ total_data verdicts.now) }
{
    let all = tally_of(verdicts);
    let mut object = Object::new(alloc);
    object.put_count(alloc, "justified", all.justified as u64)?;
    object.put_count(alloc, "pairs", all.pairs as u64)?;
    object.put_count(alloc, "refuted", all.refuted as u64)?;
    object.put_count(alloc, "undecided", all.undecided as u64)?;
    Ok(object.into_value())
}

fn put_commands(alloc: Global, object: &mut Object, selected: &Selected) -> Result<(), AllocError>
    ensures { OnOk result (made object.new ≡ with_member (codes "commands") (commands_data selected.now.commands) (made object.old)) }
{
    object.put_value(
        alloc,
        "commands",
        commands_value(alloc, &selected.commands)?,
    )
}

fn put_pairs(
    alloc: Global,
    object: &mut Object,
    limit: usize,
    selected: &Selected,
    verdicts: &[Verdict],
) -> Result<(), AllocError>
    requires { HasRows selected.now verdicts.now }
    ensures { OnOk result (made object.new ≡ with_member (codes "pairs") (pairs_data limit selected.now verdicts.now) (made object.old)) }
{
    object.put_value(
        alloc,
        "pairs",
        pairs_value(alloc, limit, selected, verdicts)?,
    )
}

fn put_total(alloc: Global, object: &mut Object, verdicts: &[Verdict]) -> Result<(), AllocError>
    ensures { OnOk result (made object.new ≡ with_member (codes "total") (total_data verdicts.now) (made object.old)) }
{
    object.put_value(alloc, "total", total_value(alloc, verdicts)?)
}

// Puts the lag, where there is any.
fn put_lag(alloc: Global, object: &mut Object, lag: u8) -> Result<(), AllocError>
    ensures { OnOk result (made object.new ≡ with_lag lag (made object.old)) }
{
    if lag == 0 {
        Ok(())
    } else {
        object.put_count(alloc, "lag", lag as u64)
    }
}

// Puts what stands only where it is asked for.
fn put_asked(
    alloc: Global,
    object: &mut Object,
    options: &RunOptions,
    notices: &Notices,
) -> Result<(), AllocError>
    ensures { OnOk result (made object.new ≡ with_asked options.now notices.now (made object.old)) }
{
    put_unjudged(alloc, object, options, notices)?;
    put_asked_name(alloc, object, "top", &notices.top)?;
    object.put_flag(alloc, "strict", options.strict)?;
    put_skipped(alloc, object, &notices.skipped)?;
    put_lag(alloc, object, options.lag)?;
    put_holds(alloc, object, options, notices)?;
    object.put_flag(alloc, "hold", options.hold)?;
    object.put_number(alloc, "free", options.free)?;
    put_cuts(alloc, object, options, notices)?;
    put_asked_name(alloc, object, "clock", &notices.clock)?;
    object.put_number(alloc, "assumed", options.assumed)?;
    object.put_number(alloc, "assist", options.assist)
}

fn report_value(
    alloc: Global,
    options: &RunOptions,
    notices: &Notices,
    selected: &Selected,
    verdicts: &[Verdict],
) -> Result<Value, AllocError>
    requires { HasRows selected.now verdicts.now }
    ensures { IfOk result (λ v. view v ≡ report_data options.now notices.now selected.now verdicts.now) }
{
    let mut object = Object::new(alloc);
    object.put_count(alloc, "budget", options.budget)?;
    put_commands(alloc, &mut object, selected)?;
    object.put_count(alloc, "depth", options.depth as u64)?;
    object.put_count(alloc, "inv", options.inv_depth as u64)?;
    object.put_text(alloc, "mode", mode_text(options.hazard))?;
    put_pairs(alloc, &mut object, options.depth, selected, verdicts)?;
    object.put_count(alloc, "reset", options.reset_len as u64)?;
    put_total(alloc, &mut object, verdicts)?;
    put_asked(alloc, &mut object, options, notices)?;
    Ok(object.into_value())
}

/// The report of what is told of a script, its selection and the verdicts as JSON, with a newline at its end.
pub fn write_json(
    alloc: Global,
    options: &RunOptions,
    notices: &Notices,
    selected: &Selected,
    verdicts: &[Verdict],
) -> Result<Vec<u8>, AllocError>
    requires { HasRows selected.now verdicts.now }
    ensures { IfOk result (λ text. text.items ≡ json_text options.now notices.now selected.now verdicts.now) }
{
    let report = report_value(alloc, options, notices, selected, verdicts)?;
    let mut text = report.to_vec(alloc)?;
    text.push(b'\n')?;
    Ok(text)
}
