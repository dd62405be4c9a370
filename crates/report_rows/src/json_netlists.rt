//! What a report as JSON tells of a netlist.
ghost use Rattle.std.specs.Prelude.{◌≡◌, IfOk, OnOk, map};
ghost use Rattle.serde_json.specs.View.{view};
ghost use Rattle.report_rows.specs.Words.{when};
ghost use Rattle.report_rows.specs.Members as spec;

use crate::members::{count_in, flag_in, lacks, list_in, text_in};
use crate::reports::{Report, Told};
use sdcv_base::Name;
use serde_json::Value;
use std::alloc::{AllocError, Global};

// The name of a key, as text.
fn name_in(alloc: Global, value: &Value, key: &str) -> Result<Option<Option<Name>>, AllocError>
    ensures { IfOk result (λ name. name ≡ spec.name_in key.now (view value.now)) }
{
    match text_in(value, key) {
        Some(name) => Ok(Some(Some(Name::new(alloc, name.as_bytes())?))),
        None => Ok(None),
    }
}

// The name of a key, where the key stands; it may do so in a report that says which cells are cut out.
fn name_asked(
    alloc: Global,
    found: &Report,
    value: &Value,
    key: &str,
) -> Result<Option<Option<Name>>, AllocError>
    ensures { IfOk result (λ name. name ≡ spec.name_asked found.now key.now (view value.now)) }
{
    if lacks(value, key) {
        return Ok(Some(None));
    }
    if !found.head.tells_cuts() {
        return Ok(None);
    }
    name_in(alloc, value, key)
}

// Adds the row on the top module, where one is named.
fn add_top(found: &mut Report, name: Option<Name>) -> Result<(), AllocError>
    ensures { OnOk result (found.new ≡ spec.with_top found.old name) }
{
    if let Some(name) = name {
        found.told.push(Told::Top(name))?;
    }
    Ok(())
}

fn add_top_in(alloc: Global, found: &mut Report, value: &Value) -> Result<bool, AllocError>
    ensures { IfOk result (λ fits. when fits found.new ≡ spec.with_top_in found.old (view value.now)) }
{
    let Some(name) = name_asked(alloc, found, value, "top")? else {
        return Ok(false);
    };
    add_top(found, name)?;
    Ok(true)
}

// Adds the row on the clock, where one is named.
fn add_clock(found: &mut Report, name: Option<Name>) -> Result<(), AllocError>
    ensures { OnOk result (found.new ≡ spec.with_clock found.old name) }
{
    if let Some(name) = name {
        found.told.push(Told::Clock(name))?;
    }
    Ok(())
}

fn add_clock_in(alloc: Global, found: &mut Report, value: &Value) -> Result<bool, AllocError>
    ensures { IfOk result (λ fits. when fits found.new ≡ spec.with_clock_in found.old (view value.now)) }
{
    let Some(name) = name_asked(alloc, found, value, "clock")? else {
        return Ok(false);
    };
    add_clock(found, name)?;
    Ok(true)
}

// Adds the row of a reference of which cells are cut out; answers whether the value is one.
fn add_cut_value(alloc: Global, found: &mut Report, value: &Value) -> Result<bool, AllocError>
    ensures { IfOk result (λ fits. when fits found.new ≡ spec.with_cut_data found.old (view value.now)) }
{
    let Some(cell) = text_in(value, "name") else {
        return Ok(false);
    };
    let Some(count) = count_in(value, "cells") else {
        return Ok(false);
    };
    let Some(leads) = flag_in(value, "open") else {
        return Ok(false);
    };
    let cell = Name::new(alloc, cell.as_bytes())?;
    found.told.push(Told::Cut(cell, count, leads))?;
    Ok(true)
}

fn add_cuts(alloc: Global, found: &mut Report, values: &[Value]) -> Result<bool, AllocError>
    ensures { IfOk result (λ fits. when fits found.new ≡ spec.with_all spec.with_cut_data found.old (map view values.now)) }
{
    for value in values {
        if !add_cut_value(alloc, found, value)? {
            return Ok(false);
        }
    }
    Ok(true)
}

// Adds the rows on cells that are cut out, in a report that says which are; in another the key does not stand.
fn add_cuts_in(alloc: Global, found: &mut Report, value: &Value) -> Result<bool, AllocError>
    ensures { IfOk result (λ fits. when fits found.new ≡ spec.with_cuts_in found.old (view value.now)) }
{
    if !found.head.tells_cuts() {
        return Ok(lacks(value, "cuts"));
    }
    match list_in(value, "cuts") {
        Some(rows) => add_cuts(alloc, found, rows),
        None => Ok(false),
    }
}

/// Adds the rows on the netlist; answers whether the value has the keys of them that its first line asks for.
#[tactic(auto, unfolding(crate::specs::Members::with_netlist_in))]
pub(crate) fn add_netlist(
    alloc: Global,
    found: &mut Report,
    value: &Value,
) -> Result<bool, AllocError>
    ensures { IfOk result (λ fits. when fits found.new ≡ spec.with_netlist_in found.old (view value.now)) }
{
    if !add_top_in(alloc, found, value)? {
        return Ok(false);
    }
    if !add_clock_in(alloc, found, value)? {
        return Ok(false);
    }
    add_cuts_in(alloc, found, value)
}
