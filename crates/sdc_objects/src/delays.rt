//! The ports of a clock, which have a delay of it.
ghost use Rattle.std.specs.Prelude.{◌≡◌, ◌++◌, IfOk, OnOk};
ghost use Rattle.std.specs.List.{list_any};
ghost use Rattle.sdc_objects.specs.Tables.{IsTablesOf};
ghost use Rattle.sdc_objects.specs.Delays as spec;

use crate::clocks::name_of;
use crate::found::{names_some, things_of};
use crate::scopes::Scope;
use crate::things::{Place, Side, Thing};
use script_types::{Command, Object, What};
use sdcv_base::{Name, Seq};
use std::alloc::{AllocError, Global};

/// What has a delay on a side of the design, of the clock that the command at a place makes.
pub(crate) fn delayed_at(
    alloc: Global,
    scope: &Scope,
    side: Side,
    place: usize,
) -> Result<Seq<Thing>, AllocError>
    requires { IsTablesOf scope.now.linked.now scope.now.tables.now }
    ensures { IfOk result (λ things. things ≡ spec.delayed_at scope.now.linked.now scope.now.script.now side place) }
{
    match scope.script.commands.as_slice().get(place) {
        Some(command) => delayed_of(alloc, scope, side, &command.what),
        None => Ok(Seq::new(alloc)),
    }
}

fn delayed_of(
    alloc: Global,
    scope: &Scope,
    side: Side,
    clock: &What,
) -> Result<Seq<Thing>, AllocError>
    requires { IsTablesOf scope.now.linked.now scope.now.tables.now }
    ensures { IfOk result (λ things. things ≡ spec.delayed_of scope.now.linked.now scope.now.script.now side clock.now) }
{
    match clock {
        What::Clock { name, source } => {
            let name = name_of(alloc, scope, name, source)?;
            delayed(alloc, scope, side, &name)
        }
        _ => Ok(Seq::new(alloc)),
    }
}

fn delayed(
    alloc: Global,
    scope: &Scope,
    side: Side,
    name: &Option<Name>,
) -> Result<Seq<Thing>, AllocError>
    requires { IsTablesOf scope.now.linked.now scope.now.tables.now }
    ensures { IfOk result (λ things. things ≡ spec.delayed scope.now.linked.now scope.now.script.now side name.now) }
{
    let commands = &scope.script.commands;
    let mut found = Seq::new(alloc);
    for k in 0..commands.len() {
        add_delayed(alloc, scope, side, name, &commands.item(k).what, &mut found)?;
    }
    Ok(found)
}

fn add_delayed(
    alloc: Global,
    scope: &Scope,
    side: Side,
    name: &Option<Name>,
    what: &What,
    found: &mut Seq<Thing>,
) -> Result<(), AllocError>
    requires { IsTablesOf scope.now.linked.now scope.now.tables.now }
    ensures { OnOk result (found.new ≡ found.old ++
        spec.delayed_by scope.now.linked.now scope.now.script.now side name.now what.now) }
{
    match what {
        What::Delay {
            output,
            clocks,
            objects,
        } => {
            if is_on(side, *output) && is_delay_of(name, clocks) {
                add_things_of(alloc, scope, objects, found)?;
            }
            Ok(())
        }
        _ => Ok(()),
    }
}

fn is_on(side: Side, output: bool) -> bool
    ensures { result ≡ spec.is_on side output }
{
    match side {
        Side::In => !output,
        Side::Out => output,
    }
}

// A delay without `-clock` is one of no clock.
fn is_delay_of(name: &Option<Name>, clocks: &Option<Seq<Object>>) -> bool
    ensures { result ≡ spec.is_delay_of name.now clocks.now }
{
    match clocks {
        Some(clocks) => names_clock(name, clocks),
        None => false,
    }
}

fn names_clock(name: &Option<Name>, clocks: &Seq<Object>) -> bool
    ensures { result ≡ list_any (spec.is_clock_of name.now) clocks.now }
{
    for k in 0..clocks.len() {
        if is_clock_of(name, clocks.item(k)) {
            return true;
        }
    }
    false
}

fn is_clock_of(name: &Option<Name>, object: &Object) -> bool
    ensures { result ≡ spec.is_clock_of name.now object.now }
{
    match object {
        Object::Named(query) => names_some(query, name),
        Object::AllClocks => true,
        Object::AllInputs | Object::AllOutputs | Object::AllRegisters => false,
    }
}

fn add_things_of(
    alloc: Global,
    scope: &Scope,
    objects: &Seq<Object>,
    found: &mut Seq<Thing>,
) -> Result<(), AllocError>
    requires { IsTablesOf scope.now.linked.now scope.now.tables.now }
    ensures { OnOk result (found.new ≡ found.old ++ spec.things_of_all scope.now.linked.now scope.now.script.now objects.now) }
{
    for k in 0..objects.len() {
        let things = things_of(alloc, scope, Place::From, objects.item(k))?;
        add_things(&things, found)?;
    }
    Ok(())
}

fn add_things(things: &Seq<Thing>, found: &mut Seq<Thing>) -> Result<(), AllocError>
    ensures { OnOk result (found.new ≡ found.old ++ things.now) }
{
    for k in 0..things.len() {
        found.push(things.at(k))?;
    }
    Ok(())
}
