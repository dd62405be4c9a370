//! What an object names in a place of an exception, in a run that is strict or not.
ghost use Rattle.std.specs.Prelude.{◌≡◌, ◌++◌, flat_map, not, ◌||◌, ◌&&◌, IfOk, OnOk};
ghost use Rattle.std.specs.Option.{is_some};
ghost use Rattle.sdc_objects.specs.Cuts as cuts;
ghost use Rattle.std.specs.List.{list_any};
ghost use Rattle.sdc_objects.specs.Tables.{IsTablesOf};
ghost use Rattle.sdc_objects.specs.Standing as spec;

use crate::cuts::is_clocked;
use crate::found::things_of;
use crate::scopes::Scope;
use crate::things::{ClockKind, Place, Thing, add_where};
use linked_types::CellName;
use script_types::Object;
use sdcv_base::Seq;
use std::alloc::{AllocError, Global};

/// All that an object names. In a strict run a clock names its ports too, and `all_registers` and the judged clock name cells that
/// are cut out, but for in through.
pub(crate) fn named_in(
    alloc: Global,
    scope: &Scope,
    place: Place,
    object: &Object,
) -> Result<Seq<Thing>, AllocError>
    requires { IsTablesOf scope.now.linked.now scope.now.tables.now }
    ensures { IfOk result (λ things. things ≡ spec.named scope.now.linked.now scope.now.script.now scope.now.strict place object.now) }
{
    match (place, scope.strict) {
        (Place::From, true) => strict_named(alloc, scope, Place::From, object),
        (Place::To, true) => strict_named(alloc, scope, Place::To, object),
        (_, _) => things_of(alloc, scope, place, object),
    }
}

fn strict_named(
    alloc: Global,
    scope: &Scope,
    place: Place,
    object: &Object,
) -> Result<Seq<Thing>, AllocError>
    requires { IsTablesOf scope.now.linked.now scope.now.tables.now }
    ensures { IfOk result (λ things. things ≡ spec.strict_named scope.now.linked.now scope.now.script.now place object.now) }
{
    match object {
        Object::AllRegisters => registers_and_cuts(alloc, scope),
        Object::Named(_) | Object::AllInputs | Object::AllOutputs | Object::AllClocks => {
            let mut things = with_ports(alloc, &things_of(alloc, scope, place, object)?)?;
            add_unclocked(scope, &mut things)?;
            Ok(things)
        }
    }
}

// With each clock its ports.
fn with_ports(alloc: Global, things: &Seq<Thing>) -> Result<Seq<Thing>, AllocError>
    ensures { IfOk result (λ named. named ≡ flat_map spec.with_ports things.now) }
{
    let mut named = Seq::new(alloc);
    for k in 0..things.len() {
        add_with_ports(things.at(k), &mut named)?;
    }
    Ok(named)
}

fn add_with_ports(thing: Thing, named: &mut Seq<Thing>) -> Result<(), AllocError>
    ensures { OnOk result (named.new ≡ named.old ++ spec.with_ports thing) }
{
    named.push(thing)?;
    if let Thing::Clock(place, _) = thing {
        named.push(Thing::Delayed(place))?;
    }
    Ok(())
}

// Adds the cells that are cut out without the judged clock, where that clock is named.
fn add_unclocked(scope: &Scope, things: &mut Seq<Thing>) -> Result<(), AllocError>
    requires { IsTablesOf scope.now.linked.now scope.now.tables.now }
    ensures { OnOk result (things.new ≡ spec.with_unclocked scope.now.linked.now.names things.old) }
{
    if has_clock(things) {
        push_unclocked(scope, things)?;
    }
    Ok(())
}

fn has_clock(things: &Seq<Thing>) -> bool
    ensures { result ≡ list_any spec.is_judged_clock things.now }
{
    for k in 0..things.len() {
        if is_judged_clock(things.at(k)) {
            return true;
        }
    }
    false
}

fn is_judged_clock(thing: Thing) -> bool
    ensures { result ≡ spec.is_judged_clock thing }
{
    match thing {
        Thing::Clock(_, ClockKind::Judged) => true,
        _ => false,
    }
}

fn push_unclocked(scope: &Scope, things: &mut Seq<Thing>) -> Result<(), AllocError>
    requires { IsTablesOf scope.now.linked.now scope.now.tables.now }
    ensures { OnOk result (things.new ≡ things.old ++ spec.unclocked scope.now.linked.now.names) }
{
    let cells = &scope.linked.names.cells;
    for k in 0..cells.len() {
        let wanted = is_unclocked(cells.item(k), scope.tables.is_cut(k));
        add_where(wanted, Thing::Cell(k), things)?;
    }
    Ok(())
}

fn is_unclocked(cell: &CellName, cut: bool) -> bool
    ensures { result ≡ (cut && not (cuts.is_clocked cell.now.pins)) }
{
    cut && !is_clocked(&cell.pins)
}

fn registers_and_cuts(alloc: Global, scope: &Scope) -> Result<Seq<Thing>, AllocError>
    requires { IsTablesOf scope.now.linked.now scope.now.tables.now }
    ensures { IfOk result (λ things. things ≡ spec.registers_and_cuts scope.now.linked.now.names) }
{
    let cells = &scope.linked.names.cells;
    let mut found = Seq::new(alloc);
    for k in 0..cells.len() {
        let wanted = has_reg_or(cells.item(k), scope.tables.is_cut(k));
        add_where(wanted, Thing::Cell(k), &mut found)?;
    }
    Ok(found)
}

fn has_reg_or(cell: &CellName, cut: bool) -> bool
    ensures { result ≡ (is_some cell.now.reg || cut) }
{
    cell.reg.is_some() || cut
}
