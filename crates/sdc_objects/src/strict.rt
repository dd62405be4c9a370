//! What things stand for in a strict run: what a timing analyser takes them for.
ghost use Rattle.std.specs.Prelude.{◌≡◌, ◌++◌, true, not, flat_map, IfOk, OnOk, slice_get};
ghost use Rattle.sdc_objects.specs.Cuts as cuts;
ghost use Rattle.sdc_objects.specs.Tables.{IsTablesOf};
ghost use Rattle.sdc_objects.specs.Standing as spec;

use crate::columns::{
    add_end, add_one, add_start, edge_role, push_reg_ends, push_reg_starts, reg_start,
};
use crate::cuts::{add_all_sinks, add_all_sources};
use crate::delays::delayed_at;
use crate::scopes::Scope;
use crate::things::{ClockKind, Side, Thing};
use linked_types::{Linked, PinRole};
use net_model::{End, Start};
use sdcv_base::Seq;
use std::alloc::{AllocError, Global};

/// Adds the starts that a thing stands for in a strict run, where the judged clock stands for clocked cells that are cut out too.
pub(crate) fn add_clock_starts(
    alloc: Global,
    scope: &Scope,
    thing: Thing,
    found: &mut Seq<Start>,
) -> Result<bool, AllocError>
    requires { IsTablesOf scope.now.linked.now scope.now.tables.now }
    ensures kept { IfOk result (λ kept. kept ≡ not (spec.is_dropped (spec.clock_starts scope.now.linked.now scope.now.script.now thing))) }
    ensures added { OnOk result (found.new ≡ found.old ++ spec.meant_by (spec.clock_starts scope.now.linked.now scope.now.script.now thing)) }
{
    match thing {
        Thing::Clock(_, ClockKind::Judged) => add_judged_starts(scope.linked, found),
        Thing::Delayed(place) => {
            add_inputs(&delayed_at(alloc, scope, Side::In, place)?, found)?;
            Ok(true)
        }
        _ => add_start(scope.linked, thing, found),
    }
}

fn add_judged_starts(linked: &Linked, found: &mut Seq<Start>) -> Result<bool, AllocError>
    ensures kept { IfOk result (λ kept. kept ≡ true) }
    ensures added { OnOk result (found.new ≡ found.old ++ (spec.all_reg_starts linked.now.design ++ cuts.all_sources linked.now.names.cells)) }
{
    push_reg_starts(&linked.design, found)?;
    add_all_sources(&linked.names.cells, found)?;
    Ok(true)
}

fn add_inputs(things: &Seq<Thing>, found: &mut Seq<Start>) -> Result<(), AllocError>
    ensures { OnOk result (found.new ≡ found.old ++ flat_map spec.input_of things.now) }
{
    for k in 0..things.len() {
        add_input(things.at(k), found)?;
    }
    Ok(())
}

fn add_input(thing: Thing, found: &mut Seq<Start>) -> Result<(), AllocError>
    ensures { OnOk result (found.new ≡ found.old ++ spec.input_of thing) }
{
    if let Thing::In(input) = thing {
        found.push(Start::Input(input))?;
    }
    Ok(())
}

/// Adds the starts that a thing stands for after the rise of what clocks it.
pub(crate) fn add_rise_start(
    linked: &Linked,
    thing: Thing,
    found: &mut Seq<Start>,
) -> Result<bool, AllocError>
    ensures kept { IfOk result (λ kept. kept ≡ not (spec.is_dropped (spec.rise_column linked.now thing))) }
    ensures added { OnOk result (found.new ≡ found.old ++ spec.meant_by (spec.rise_column linked.now thing)) }
{
    match thing {
        Thing::Pin(k, place) => add_one(rise_start(linked, k, place), found),
        Thing::Clock(_, _) => Ok(false),
        _ => add_start(linked, thing, found),
    }
}

/// Adds the start that a thing stands for after its fall: a port's alone.
pub(crate) fn add_fall_start(thing: Thing, found: &mut Seq<Start>) -> Result<bool, AllocError>
    ensures kept { IfOk result (λ kept. kept ≡ not (spec.is_dropped (spec.fall_column thing))) }
    ensures added { OnOk result (found.new ≡ found.old ++ spec.meant_by (spec.fall_column thing)) }
{
    match thing {
        Thing::In(input) => add_one(Some(Start::Input(input)), found),
        Thing::Delayed(_) => Ok(true),
        _ => Ok(false),
    }
}

// The register whose clock pin it is, or else the start that stands for it after either option.
fn rise_start(linked: &Linked, k: usize, place: usize) -> Option<Start>
    ensures { spec.one_of result ≡ spec.pin_by (spec.rise_pin linked.now.design) (slice_get linked.now.names.cells k) place }
{
    let cell = linked.names.cells.as_slice().get(k)?;
    let pin = cell.pins.as_slice().get(place)?;
    match &pin.role {
        PinRole::Clock => reg_start(cell.reg),
        role => edge_role(&linked.design, cell.reg, role),
    }
}

/// Adds the ends that a thing stands for in a strict run, where the judged clock stands for clocked cells that are cut out too.
pub(crate) fn add_clock_ends(
    alloc: Global,
    scope: &Scope,
    thing: Thing,
    found: &mut Seq<End>,
) -> Result<bool, AllocError>
    requires { IsTablesOf scope.now.linked.now scope.now.tables.now }
    ensures kept { IfOk result (λ kept. kept ≡ not (spec.is_dropped (spec.clock_ends scope.now.linked.now scope.now.script.now thing))) }
    ensures added { OnOk result (found.new ≡ found.old ++ spec.meant_by (spec.clock_ends scope.now.linked.now scope.now.script.now thing)) }
{
    match thing {
        Thing::Clock(_, ClockKind::Judged) => add_judged_ends(scope.linked, found),
        Thing::Delayed(place) => {
            add_outputs(&delayed_at(alloc, scope, Side::Out, place)?, found)?;
            Ok(true)
        }
        _ => add_end(scope.linked, thing, found),
    }
}

fn add_judged_ends(linked: &Linked, found: &mut Seq<End>) -> Result<bool, AllocError>
    ensures kept { IfOk result (λ kept. kept ≡ true) }
    ensures added { OnOk result (found.new ≡ found.old ++ (spec.all_reg_ends linked.now.design ++ cuts.all_sinks linked.now.names.cells)) }
{
    push_reg_ends(&linked.design, found)?;
    add_all_sinks(&linked.names.cells, found)?;
    Ok(true)
}

fn add_outputs(things: &Seq<Thing>, found: &mut Seq<End>) -> Result<(), AllocError>
    ensures { OnOk result (found.new ≡ found.old ++ flat_map spec.output_of things.now) }
{
    for k in 0..things.len() {
        add_output(things.at(k), found)?;
    }
    Ok(())
}

fn add_output(thing: Thing, found: &mut Seq<End>) -> Result<(), AllocError>
    ensures { OnOk result (found.new ≡ found.old ++ spec.output_of thing) }
{
    if let Thing::Out(output) = thing {
        found.push(End::Output(output))?;
    }
    Ok(())
}
