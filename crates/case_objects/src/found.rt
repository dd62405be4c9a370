//! The values that all case analyses of a script set.
ghost use Rattle.std.specs.Prelude.{◌≡◌, ◌++◌, map, flat_map, All, IfOk, IfErr, OnOk};
ghost use Rattle.script_types.specs.declared.scripts.Command.{Command as CommandRecord};
ghost use Rattle.sdc_settings.specs.Settings.{case_objects as objects_of};
ghost use Rattle.sdc_objects.specs.Tables.{IsTablesOf};
ghost use Rattle.case_objects.specs.Values as spec;
ghost use Rattle.case_objects.specs.Values.{HasPlaces};
ghost use Rattle.case_objects.specs.Causes.{IsObjectCause, IsPlaceCause};

use crate::places::{have_places, input_at, place_of};
use crate::spots::{Spot, spots};
use crate::values::CaseValue;
use script_types::{Command, Object, What};
use sdc_objects::Scope;
use sdc_settings::object_text;
use sdcv_base::Seq;
use selected_types::ExpandFault;
use std::alloc::{AllocError, Global};

/// The values that all case analyses of a script set, in their order.
pub(crate) fn case_values(alloc: Global, scope: &Scope) -> Result<Seq<CaseValue>, ExpandFault>
    requires { IsTablesOf scope.now.linked.now scope.now.tables.now }
    ensures ok { IfOk result (λ values. values ≡ spec.case_values scope.now.linked.now scope.now.script.now) }
    ensures placed { OnOk result (All (λ (c : CommandRecord). All (HasPlaces scope.now.linked.now) (objects_of c.what)) scope.now.script.now.commands) }
    ensures err { IfErr result (IsPlaceCause scope.now.linked.now scope.now.script.now.commands) }
{
    let mut values = Seq::new(alloc);
    for k in 0..scope.script.commands.len() {
        let command = scope.script.commands.item(k);
        if let What::Case { value, objects } = &command.what {
            add_objects(alloc, scope, command.line, *value, objects, &mut values)?;
        }
    }
    Ok(values)
}

// Adds what a case analysis on this line sets on what its objects name.
fn add_objects(
    alloc: Global,
    scope: &Scope,
    line: u64,
    value: bool,
    objects: &Seq<Object>,
    values: &mut Seq<CaseValue>,
) -> Result<(), ExpandFault>
    requires { IsTablesOf scope.now.linked.now scope.now.tables.now }
    ensures added { OnOk result (values.new ≡ values.old ++ flat_map (spec.object_values scope.now.linked.now line value) objects.now) }
    ensures placed { OnOk result (All (HasPlaces scope.now.linked.now) objects.now) }
    ensures err { IfErr result (IsObjectCause scope.now.linked.now line objects.now) }
{
    for k in 0..objects.len() {
        let object = objects.item(k);
        let found = spots(alloc, &scope.linked.names, object)?;
        if found.is_empty() || !have_places(alloc, scope, &found)? {
            return Err(ExpandFault::CaseOnPin(line, object_text(alloc, object)?));
        }
        add_values(alloc, scope, line, value, &found, values)?;
    }
    Ok(())
}

fn add_values(
    alloc: Global,
    scope: &Scope,
    line: u64,
    value: bool,
    found: &Seq<Spot>,
    values: &mut Seq<CaseValue>,
) -> Result<(), AllocError>
    requires { IsTablesOf scope.now.linked.now scope.now.tables.now }
    ensures { OnOk result (values.new ≡ values.old ++ map (spec.value_on scope.now.linked.now line value) found.now) }
{
    for k in 0..found.len() {
        values.push(value_on(alloc, scope, line, value, found.item(k))?)?;
    }
    Ok(())
}

fn value_on(
    alloc: Global,
    scope: &Scope,
    line: u64,
    value: bool,
    spot: &Spot,
) -> Result<CaseValue, AllocError>
    requires { IsTablesOf scope.now.linked.now scope.now.tables.now }
    ensures { IfOk result (λ set. set ≡ spec.value_on scope.now.linked.now line value spot.now) }
{
    let place = place_of(alloc, scope, spot)?;
    let input = input_at(&scope.linked.design, &place);
    Ok(CaseValue {
        line,
        name: spot.name.copy(alloc)?,
        value,
        place,
        input,
    })
}
