//! A report as JSON.
ghost use Rattle.std.specs.Prelude.{◌≡◌, IfOk, IfErr, map};
ghost use Rattle.std.specs.Option.{option_map};
ghost use Rattle.serde_json.specs.View.{view};
ghost use Rattle.report_rows.specs.Words.{when};
ghost use Rattle.report_rows.specs.Members as spec;
ghost use Rattle.report_rows.specs.Reads.{IsJsonReport, IsValueOf, IsUnread, IsJsonFault};

use crate::faults::ReportFault;
use crate::heads::{Asked, Head};
use crate::json_pairs::add_pair_value;
use crate::json_scripts::add_command_value;
use crate::json_told::add_told;
use crate::members::{count_in, flag_asked, lag_in, list_in, number_asked, text_in};
use crate::reports::Report;
use crate::totals::{Tally, Totalled};
use crate::verdicts::hazard_in;
use serde_json::{Category, Value};
use std::alloc::{AllocError, Global};

#[tactic(auto, unfolding(crate::specs::Members::head_in))]
fn head_in(value: &Value) -> Option<Head>
    ensures { result ≡ spec.head_in (view value.now) }
{
    let hazard = hazard_in(text_in(value, "mode")?.as_bytes())?;
    let reset = count_in(value, "reset")?;
    let lag = lag_in(value)?;
    let hold = flag_asked(value, "hold")?;
    let asked = asked_in(value)?;
    Some(Head {
        hazard,
        reset,
        lag,
        hold,
        asked,
    })
}

// What else is asked for.
#[tactic(auto, unfolding(crate::specs::Members::asked_in))]
fn asked_in(value: &Value) -> Option<Asked>
    ensures { result ≡ spec.asked_in (view value.now) }
{
    let assist = number_asked(value, "assist")?;
    let free = number_asked(value, "free")?;
    let assumed = number_asked(value, "assumed")?;
    let strict = flag_asked(value, "strict")?;
    Some(Asked {
        assist,
        free,
        assumed,
        strict,
    })
}

fn add_commands(alloc: Global, found: &mut Report, values: &[Value]) -> Result<bool, AllocError>
    ensures { IfOk result (λ fits. when fits found.new ≡ spec.with_all spec.with_command_data found.old (map view values.now)) }
{
    for value in values {
        if !add_command_value(alloc, found, value)? {
            return Ok(false);
        }
    }
    Ok(true)
}

fn add_pairs(alloc: Global, found: &mut Report, values: &[Value]) -> Result<bool, AllocError>
    ensures { IfOk result (λ fits. when fits found.new ≡ spec.with_all spec.with_pair_data found.old (map view values.now)) }
{
    for value in values {
        if !add_pair_value(alloc, found, value)? {
            return Ok(false);
        }
    }
    Ok(true)
}

// The totals of a value.
#[tactic(auto, unfolding(crate::specs::Members::total_in))]
fn total_in(value: &Value) -> Option<Tally>
    ensures { result ≡ spec.total_in (view value.now) }
{
    let total = value.get("total")?;
    let pairs = count_in(total, "pairs")?;
    let justified = count_in(total, "justified")?;
    let refuted = count_in(total, "refuted")?;
    let undecided = count_in(total, "undecided")?;
    Some(Tally {
        pairs,
        justified,
        refuted,
        undecided,
    })
}

// The rows of a value.
#[tactic(auto, unfolding(crate::specs::Members::report_in))]
fn report_in(alloc: Global, value: &Value) -> Result<Option<Report>, AllocError>
    ensures { IfOk result (λ report. report ≡ spec.report_in (view value.now)) }
{
    let Some(head) = head_in(value) else {
        return Ok(None);
    };
    let Some(commands) = list_in(value, "commands") else {
        return Ok(None);
    };
    let Some(pairs) = list_in(value, "pairs") else {
        return Ok(None);
    };
    let mut found = head.report(alloc);
    if !add_told(alloc, &mut found, value)? {
        return Ok(None);
    }
    if !add_commands(alloc, &mut found, commands)? {
        return Ok(None);
    }
    if !add_pairs(alloc, &mut found, pairs)? {
        return Ok(None);
    }
    Ok(Some(found))
}

// What a value says: its rows, and its totals.
#[tactic(auto, unfolding(crate::specs::Members::totalled_in))]
fn totalled_in(alloc: Global, value: &Value) -> Result<Option<Totalled>, AllocError>
    ensures { IfOk result (λ found. found ≡ spec.totalled_in (view value.now)) }
{
    let Some(report) = report_in(alloc, value)? else {
        return Ok(None);
    };
    match total_in(value) {
        Some(total) => Ok(Some(Totalled { report, total })),
        None => Ok(None),
    }
}

/// The value that a JSON text stands for; `Json` where it is none.
pub(crate) fn value_of(alloc: Global, text: &[u8]) -> Result<Value, ReportFault>
    ensures ok { IfOk result (λ value. IsValueOf text.now (view value)) }
    ensures err { IfErr result (IsUnread text.now) }
{
    match Value::from_slice(alloc, text) {
        Ok(value) => Ok(value),
        Err(error) => match error.classify() {
            Category::Memory => Err(ReportFault::Memory),
            _ => Err(ReportFault::Json),
        },
    }
}

/// What a JSON text says.
pub(crate) fn read_json(alloc: Global, text: &[u8]) -> Result<Totalled, ReportFault>
    ensures ok { IfOk result (IsJsonReport text.now) }
    ensures err { IfErr result (IsJsonFault text.now) }
{
    let value = value_of(alloc, text)?;
    totalled_in(alloc, &value)?.ok_or(ReportFault::Json)
}
