//! What a user is told of the objects of an exception.
ghost use Rattle.std.specs.Prelude.{◌≡◌, ◌++◌, OnOk};
ghost use Rattle.sdc_objects.specs.Tables.{IsTablesOf};
ghost use Rattle.sdc_settings.specs.Inputs.{object_text as text_of};
ghost use Rattle.sdcv_base.specs.Seqs.{where_true};
ghost use Rattle.sdc_objects.specs.Standing as spec;
ghost use Rattle.sdc_objects.specs.Things.{is_several as is_several_of};
ghost use Rattle.selected_types.specs.declared.warnings.Warning.TheVariants.{Several};

use crate::scopes::Scope;
use crate::several::is_several;
use crate::things::{Place, Thing};
use script_types::{Object, Query};
use sdc_settings::object_text;
use sdcv_base::Seq;
use selected_types::Warning;
use std::alloc::{AllocError, Global};

/// Adds the warning of an object, if there is one: it names these things, and so many of them are dropped.
pub(crate) fn warn(
    alloc: Global,
    object: &Object,
    things: &Seq<Thing>,
    dropped: usize,
    warnings: &mut Seq<Warning>,
) -> Result<(), AllocError>
    ensures { OnOk result (warnings.new ≡ warnings.old ++ spec.warning (text_of object.now) things.now dropped) }
{
    if things.is_empty() {
        warnings.push(Warning::Nothing(object_text(alloc, object)?))?;
    } else if dropped > 0 {
        warnings.push(Warning::Dropped(object_text(alloc, object)?, dropped as u64))?;
    }
    Ok(())
}

/// Adds the warning of a pattern that names things of several classes.
pub(crate) fn warn_several(
    alloc: Global,
    scope: &Scope,
    place: Place,
    object: &Object,
    warnings: &mut Seq<Warning>,
) -> Result<(), AllocError>
    requires { IsTablesOf scope.now.linked.now scope.now.tables.now }
    ensures { OnOk result (warnings.new ≡ warnings.old ++ spec.several scope.now.linked.now scope.now.script.now place object.now) }
{
    match object {
        Object::Named(query) => warn_query(alloc, scope, place, query, warnings),
        Object::AllInputs | Object::AllOutputs | Object::AllRegisters | Object::AllClocks => Ok(()),
    }
}

fn warn_query(
    alloc: Global,
    scope: &Scope,
    place: Place,
    query: &Query,
    warnings: &mut Seq<Warning>,
) -> Result<(), AllocError>
    requires { IsTablesOf scope.now.linked.now scope.now.tables.now }
    ensures { OnOk result (warnings.new ≡ warnings.old ++ where_true
        (is_several_of scope.now.linked.now scope.now.script.now place query.now) (Several query.now.pattern)) }
{
    if is_several(alloc, scope, place, query)? {
        warnings.push(Warning::Several(query.pattern.copy(alloc)?))?;
    }
    Ok(())
}
