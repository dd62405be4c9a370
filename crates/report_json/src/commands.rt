//! The exceptions as values.
ghost use Rattle.std.specs.Prelude.{◌≡◌, ◌+◌, ◌<◌, ◌^◌, codes, IfOk, OnOk};
ghost use Rattle.serde_json.specs.Data.{string};
ghost use Rattle.serde_json.specs.Data.{put as with_member};
ghost use Rattle.serde_json.specs.View.{view};
ghost use Rattle.report_text.specs.Words.{what_text};
ghost use Rattle.report_json.specs.Objects.{made};
ghost use Rattle.report_json.specs.Reports.{pairs_of, warnings_data, command_data, commands_data};

use crate::objects::{Object, array_of};
use report_text::{warning_text, what_text};
use sdcv_base::Seq;
use selected_types::{CommandLine, Listing, Warning};
use serde_json::Value;
use std::alloc::{AllocError, Global};

fn pairs_of(listing: &Listing) -> u64
    ensures { result ≡ pairs_of listing.now }
{
    match listing {
        Listing::Claiming(_, _, pairs) | Listing::HoldSide(_, pairs) => *pairs,
        Listing::Hold | Listing::Aside(_) => 0,
    }
}

fn warnings_value(alloc: Global, warnings: &Seq<Warning>) -> Result<Value, AllocError>
    ensures { IfOk result (λ v. view v ≡ warnings_data warnings.now) }
{
    let mut list = Vec::new(alloc);
    for warning in warnings.as_slice() {
        let text = warning_text(alloc, warning)?;
        list.push(Value::String(text))?;
    }
    Ok(array_of(list))
}

fn put_warnings(
    alloc: Global,
    object: &mut Object,
    warnings: &Seq<Warning>,
) -> Result<(), AllocError>
    ensures { OnOk result (made object.new ≡ with_member (codes "warnings") (warnings_data warnings.now) (made object.old)) }
{
    object.put_value(alloc, "warnings", warnings_value(alloc, warnings)?)
}

fn put_what(alloc: Global, object: &mut Object, listing: &Listing) -> Result<(), AllocError>
    ensures { OnOk result (made object.new ≡ with_member (codes "what") (string (what_text listing.now)) (made object.old)) }
{
    object.put_text(alloc, "what", &what_text(alloc, listing)?)
}

// The exception at a place.
fn command_value(alloc: Global, place: usize, command: &CommandLine) -> Result<Value, AllocError>
    requires { place + 1 < 2 ^ 64 }
    ensures { IfOk result (λ v. view v ≡ command_data place command.now) }
{
    let mut object = Object::new(alloc);
    object.put_count(alloc, "line", command.line)?;
    object.put_count(alloc, "number", place as u64 + 1)?;
    object.put_count(alloc, "pairs", pairs_of(&command.listing))?;
    put_warnings(alloc, &mut object, &command.warnings)?;
    put_what(alloc, &mut object, &command.listing)?;
    Ok(object.into_value())
}

/// All exceptions, in order.
pub(crate) fn commands_value(
    alloc: Global,
    commands: &Seq<CommandLine>,
) -> Result<Value, AllocError>
    ensures { IfOk result (λ v. view v ≡ commands_data commands.now) }
{
    let mut list = Vec::new(alloc);
    for k in 0..commands.len() {
        let value = command_value(alloc, k, commands.item(k))?;
        list.push(value)?;
    }
    Ok(array_of(list))
}
