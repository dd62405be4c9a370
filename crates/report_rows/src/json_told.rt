//! What a report as JSON tells of a netlist, and of a script beside its exceptions.
ghost use Rattle.std.specs.Prelude.{◌≡◌, IfOk, OnOk, map};
ghost use Rattle.serde_json.specs.View.{view};
ghost use Rattle.report_rows.specs.Words.{when};
ghost use Rattle.report_rows.specs.Members as spec;

use crate::json_netlists::add_netlist;
use crate::members::{count_in, lacks, list_in, text_in};
use crate::reports::{Report, Told};
use sdcv_base::Name;
use serde_json::Value;
use std::alloc::{AllocError, Global};

// Adds the row of a name of which commands are passed over; answers whether the value is one.
fn add_skipped_value(alloc: Global, found: &mut Report, value: &Value) -> Result<bool, AllocError>
    ensures { IfOk result (λ fits. when fits found.new ≡ spec.with_skipped_data found.old (view value.now)) }
{
    let Some(name) = text_in(value, "name") else {
        return Ok(false);
    };
    let Some(count) = count_in(value, "count") else {
        return Ok(false);
    };
    let name = Name::new(alloc, name.as_bytes())?;
    found.told.push(Told::Skipped(name, count))?;
    Ok(true)
}

fn add_skipped(alloc: Global, found: &mut Report, values: &[Value]) -> Result<bool, AllocError>
    ensures { IfOk result (λ fits. when fits found.new ≡ spec.with_all spec.with_skipped_data found.old (map view values.now)) }
{
    for value in values {
        if !add_skipped_value(alloc, found, value)? {
            return Ok(false);
        }
    }
    Ok(true)
}

// Adds the rows on what is passed over, where the key stands.
fn add_skipped_in(alloc: Global, found: &mut Report, value: &Value) -> Result<bool, AllocError>
    ensures { IfOk result (λ fits. when fits found.new ≡ spec.with_skipped_in found.old (view value.now)) }
{
    if lacks(value, "skipped") {
        return Ok(true);
    }
    match list_in(value, "skipped") {
        Some(rows) => add_skipped(alloc, found, rows),
        None => Ok(false),
    }
}

// Adds the row of a command that is not judged; answers whether the value is one.
fn add_unjudged_value(alloc: Global, found: &mut Report, value: &Value) -> Result<bool, AllocError>
    ensures { IfOk result (λ fits. when fits found.new ≡ spec.with_unjudged_data found.old (view value.now)) }
{
    let Some(line) = count_in(value, "line") else {
        return Ok(false);
    };
    let Some(name) = text_in(value, "name") else {
        return Ok(false);
    };
    let name = Name::new(alloc, name.as_bytes())?;
    found.told.push(Told::Unjudged(line, name))?;
    Ok(true)
}

fn add_unjudged(alloc: Global, found: &mut Report, values: &[Value]) -> Result<bool, AllocError>
    ensures { IfOk result (λ fits. when fits found.new ≡ spec.with_all spec.with_unjudged_data found.old (map view values.now)) }
{
    for value in values {
        if !add_unjudged_value(alloc, found, value)? {
            return Ok(false);
        }
    }
    Ok(true)
}

// Adds the rows on what is not judged, in a strict report; in another the key does not stand.
fn add_unjudged_in(alloc: Global, found: &mut Report, value: &Value) -> Result<bool, AllocError>
    ensures { IfOk result (λ fits. when fits found.new ≡ spec.with_unjudged_in found.old (view value.now)) }
{
    if !found.head.asked.strict {
        return Ok(lacks(value, "unjudged"));
    }
    match list_in(value, "unjudged") {
        Some(rows) => add_unjudged(alloc, found, rows),
        None => Ok(false),
    }
}

// Adds the row on hold sides, where there are some.
fn add_holds(found: &mut Report, count: u64) -> Result<(), AllocError>
    ensures { OnOk result (found.new ≡ spec.with_holds found.old count) }
{
    if count > 0 {
        found.told.push(Told::HoldSides(count))?;
    }
    Ok(())
}

// Adds the row on hold sides, in a strict report that does not judge them; in another the key does not stand.
fn add_holds_in(found: &mut Report, value: &Value) -> Result<bool, AllocError>
    ensures { IfOk result (λ fits. when fits found.new ≡ spec.with_holds_in found.old (view value.now)) }
{
    if !found.head.tells_holds() {
        return Ok(lacks(value, "hold_commands"));
    }
    let Some(count) = count_in(value, "hold_commands") else {
        return Ok(false);
    };
    add_holds(found, count)?;
    Ok(true)
}

/// Adds the rows on the netlist, and on what is told beside the exceptions; answers whether the value has the keys of them that its first line asks for.
#[tactic(auto, unfolding(crate::specs::Members::with_told_in))]
pub(crate) fn add_told(alloc: Global, found: &mut Report, value: &Value) -> Result<bool, AllocError>
    ensures { IfOk result (λ fits. when fits found.new ≡ spec.with_told_in found.old (view value.now)) }
{
    if !add_netlist(alloc, found, value)? {
        return Ok(false);
    }
    if !add_skipped_in(alloc, found, value)? {
        return Ok(false);
    }
    if !add_unjudged_in(alloc, found, value)? {
        return Ok(false);
    }
    add_holds_in(found, value)
}
