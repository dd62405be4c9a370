//! What the objects of a list stand for.
ghost use Rattle.std.specs.Prelude.{◌≡◌, ◌++◌, ◌≤◌, IfOk, OnOk, length};
ghost use Rattle.sdc_objects.specs.Tables.{IsTablesOf};
ghost use Rattle.sdc_objects.specs.Standing as spec;

use crate::columns::Column;
use crate::named::named_in;
use crate::scopes::Scope;
use crate::things::Thing;
use crate::warnings::{warn, warn_several};
use net_model::Edge;
use script_types::Object;
use sdcv_base::Seq;
use selected_types::Warning;
use std::alloc::{AllocError, Global};

/// What the objects of a list stand for in the place of `T`, in their order, some maybe several times, after an option of
/// this edge (SDC 2.1, `-rise_from` and `-fall_from`). Adds the warnings of the objects that name nothing, or of which some
/// can't stand there, and in a strict run of those that name things of several classes.
pub fn meant<T: Column>(
    alloc: Global,
    scope: &Scope,
    edge: Edge,
    objects: &Seq<Object>,
    warnings: &mut Seq<Warning>,
) -> Result<Seq<T>, AllocError>
    requires { IsTablesOf scope.now.linked.now scope.now.tables.now }
    ensures items { IfOk result (λ items. items ≡ spec.meant (T.column scope.now.linked.now scope.now.script.now scope.now.strict edge)
        scope.now.linked.now scope.now.script.now scope.now.strict T.at objects.now) }
    ensures warnings { OnOk result (warnings.new ≡ warnings.old ++ spec.warnings (T.column scope.now.linked.now scope.now.script.now scope.now.strict edge)
        scope.now.linked.now scope.now.script.now scope.now.strict T.at objects.now) }
{
    let mut items = Seq::new(alloc);
    for k in 0..objects.len() {
        add_object(alloc, scope, edge, objects.item(k), &mut items, warnings)?;
    }
    Ok(items)
}

fn add_object<T: Column>(
    alloc: Global,
    scope: &Scope,
    edge: Edge,
    object: &Object,
    items: &mut Seq<T>,
    warnings: &mut Seq<Warning>,
) -> Result<(), AllocError>
    requires { IsTablesOf scope.now.linked.now scope.now.tables.now }
    ensures items { OnOk result (items.new ≡ items.old ++ spec.meant_of (T.column scope.now.linked.now scope.now.script.now scope.now.strict edge)
        (spec.named scope.now.linked.now scope.now.script.now scope.now.strict T.at object.now)) }
    ensures warnings { OnOk result (warnings.new ≡ warnings.old ++ spec.warnings_of (T.column scope.now.linked.now scope.now.script.now scope.now.strict edge)
        scope.now.linked.now scope.now.script.now scope.now.strict T.at object.now) }
{
    let things = named_in(alloc, scope, T::place(), object)?;
    let dropped = add_things(alloc, scope, edge, &things, items)?;
    warn(alloc, object, &things, dropped, warnings)?;
    if scope.strict {
        warn_several(alloc, scope, T::place(), object, warnings)?;
    }
    Ok(())
}

// Adds what the things stand for, and counts those that are dropped.
fn add_things<T: Column>(
    alloc: Global,
    scope: &Scope,
    edge: Edge,
    things: &Seq<Thing>,
    items: &mut Seq<T>,
) -> Result<usize, AllocError>
    requires { IsTablesOf scope.now.linked.now scope.now.tables.now }
    ensures dropped { IfOk result (λ dropped.
        dropped ≡ spec.dropped_of (T.column scope.now.linked.now scope.now.script.now scope.now.strict edge) things.now) }
    ensures items { OnOk result (items.new ≡ items.old ++
        spec.meant_of (T.column scope.now.linked.now scope.now.script.now scope.now.strict edge) things.now) }
{
    let mut dropped = 0;
    for k in 0..things.len() {
        if !T::add(alloc, scope, edge, things.at(k), items)? {
            dropped += 1;
        }
    }
    Ok(dropped)
}
