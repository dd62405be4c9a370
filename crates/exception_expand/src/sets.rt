//! The through sets of an exception.
ghost use Rattle.std.specs.Prelude.{◌≡◌, ◌++◌, IfOk, OnOk, map, flat_map};
ghost use Rattle.sdc_objects.specs.Tables.{IsTablesOf};
ghost use Rattle.sdc_objects.specs.Standing.{pins_of, through_column, warnings as warnings_of};
ghost use Rattle.sdc_objects.specs.declared.things.Place.TheVariants as places;

use net_model::{Edge, PinRef, PinSet};
use script_types::Object;
use sdc_objects::{Scope, meant};
use sdcv_base::Seq;
use selected_types::Warning;
use std::alloc::{AllocError, Global};

/// A set of pins for each list of objects, in their order. Adds the warnings of the objects.
pub(crate) fn pin_sets(
    alloc: Global,
    scope: &Scope,
    lists: &Seq<Seq<Object>>,
    warnings: &mut Seq<Warning>,
) -> Result<Seq<PinSet>, AllocError>
    requires { IsTablesOf scope.now.linked.now scope.now.tables.now }
    ensures sets { IfOk result (λ sets. sets ≡ map (pins_of scope.now.linked.now scope.now.script.now) lists.now) }
    ensures warnings { OnOk result (warnings.new ≡ warnings.old ++
        flat_map (warnings_of (through_column scope.now.linked.now) scope.now.linked.now scope.now.script.now scope.now.strict places.Through) lists.now) }
{
    let mut sets = Seq::new(alloc);
    for k in 0..lists.len() {
        sets.push(pin_set(alloc, scope, lists.item(k), warnings)?)?;
    }
    Ok(sets)
}

fn pin_set(
    alloc: Global,
    scope: &Scope,
    objects: &Seq<Object>,
    warnings: &mut Seq<Warning>,
) -> Result<PinSet, AllocError>
    requires { IsTablesOf scope.now.linked.now scope.now.tables.now }
    ensures set { IfOk result (λ set. set ≡ pins_of scope.now.linked.now scope.now.script.now objects.now) }
    ensures warnings { OnOk result (warnings.new ≡ warnings.old ++
        warnings_of (through_column scope.now.linked.now) scope.now.linked.now scope.now.script.now scope.now.strict places.Through objects.now) }
{
    let pins = meant::<PinRef>(alloc, scope, Edge::Any, objects, warnings)?;
    PinSet::of(alloc, pins.as_slice())
}
