//! What is told of a script beside its exceptions, as values.
ghost use Rattle.std.specs.Prelude.{◌≡◌, codes, IfOk, OnOk};
ghost use Rattle.serde_json.specs.View.{view};
ghost use Rattle.report_json.specs.Objects.{made, with_holds, with_skipped, with_unjudged};
ghost use Rattle.report_json.specs.Reports.{one_skipped, one_unjudged, skipped_data, unjudged_data};

use crate::objects::{Object, array_of};
use run_options::RunOptions;
use sdcv_base::Seq;
use selected_types::{Notices, Skipped, Unjudged};
use serde_json::Value;
use std::alloc::{AllocError, Global};

fn skipped_value(alloc: Global, skipped: &Skipped) -> Result<Value, AllocError>
    ensures { IfOk result (λ v. view v ≡ one_skipped skipped.now) }
{
    let mut object = Object::new(alloc);
    object.put_count(alloc, "count", skipped.count)?;
    object.put_name(alloc, "name", &skipped.name)?;
    Ok(object.into_value())
}

fn all_skipped(alloc: Global, skipped: &Seq<Skipped>) -> Result<Value, AllocError>
    ensures { IfOk result (λ v. view v ≡ skipped_data skipped.now) }
{
    let mut list = Vec::new(alloc);
    for row in skipped.as_slice() {
        let value = skipped_value(alloc, row)?;
        list.push(value)?;
    }
    Ok(array_of(list))
}

/// Puts the commands that are passed over, where any may be.
pub(crate) fn put_skipped(
    alloc: Global,
    object: &mut Object,
    skipped: &Option<Seq<Skipped>>,
) -> Result<(), AllocError>
    ensures { OnOk result (made object.new ≡ with_skipped skipped.now (made object.old)) }
{
    match skipped {
        Some(skipped) => object.put_value(alloc, "skipped", all_skipped(alloc, skipped)?),
        None => Ok(()),
    }
}

fn unjudged_value(alloc: Global, unjudged: &Unjudged) -> Result<Value, AllocError>
    ensures { IfOk result (λ v. view v ≡ one_unjudged unjudged.now) }
{
    let mut object = Object::new(alloc);
    object.put_count(alloc, "line", unjudged.line)?;
    object.put_name(alloc, "name", &unjudged.name)?;
    Ok(object.into_value())
}

fn all_unjudged(alloc: Global, unjudged: &Seq<Unjudged>) -> Result<Value, AllocError>
    ensures { IfOk result (λ v. view v ≡ unjudged_data unjudged.now) }
{
    let mut list = Vec::new(alloc);
    for row in unjudged.as_slice() {
        let value = unjudged_value(alloc, row)?;
        list.push(value)?;
    }
    Ok(array_of(list))
}

/// Puts the commands that are not judged, in a strict run.
pub(crate) fn put_unjudged(
    alloc: Global,
    object: &mut Object,
    options: &RunOptions,
    notices: &Notices,
) -> Result<(), AllocError>
    ensures { OnOk result (made object.new ≡ with_unjudged options.now notices.now (made object.old)) }
{
    if options.strict {
        object.put_value(alloc, "unjudged", all_unjudged(alloc, &notices.unjudged)?)
    } else {
        Ok(())
    }
}

/// Puts of how many false paths the hold side is not judged, in a strict run that does not judge hold sides.
pub(crate) fn put_holds(
    alloc: Global,
    object: &mut Object,
    options: &RunOptions,
    notices: &Notices,
) -> Result<(), AllocError>
    ensures { OnOk result (made object.new ≡ with_holds options.now notices.now (made object.old)) }
{
    if options.strict && !options.hold {
        object.put_count(alloc, "hold_commands", notices.hold_commands)
    } else {
        Ok(())
    }
}
