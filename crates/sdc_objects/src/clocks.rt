//! The clocks of a script: by which name they go, and how they stand to the judged one.
ghost use Rattle.std.specs.Prelude.{◌≡◌, if◌then◌else◌, IfOk};
ghost use Rattle.sdc_settings.specs.Sources.{clock_name as name_of_clock};
ghost use Rattle.sdc_objects.specs.Tables.{IsTablesOf};
ghost use Rattle.sdc_objects.specs.Clocks as spec;
ghost use Rattle.sdc_objects.specs.declared.things.ClockKind.TheVariants.{Judged, Other};

use crate::scopes::Scope;
use crate::things::ClockKind;
use linked_types::PortName;
use script_types::Object;
use sdc_settings::{clock_name, source_bit};
use sdcv_base::{Name, Seq};
use std::alloc::{AllocError, Global};

/// The name of a clock, by its own name and its source.
pub(crate) fn name_of(
    alloc: Global,
    scope: &Scope,
    own: &Option<Name>,
    source: &Seq<Object>,
) -> Result<Option<Name>, AllocError>
    requires { IsTablesOf scope.now.linked.now scope.now.tables.now }
    ensures { IfOk result (λ name. name ≡ name_of_clock (spec.input_ports scope.now.linked.now.names) own.now source.now) }
{
    clock_name(alloc, &scope.tables.inputs, own, source)
}

/// How a clock of this source stands to the judged one.
pub(crate) fn clock_kind(
    alloc: Global,
    scope: &Scope,
    source: &Seq<Object>,
) -> Result<ClockKind, AllocError>
    requires { IsTablesOf scope.now.linked.now scope.now.tables.now }
    ensures { IfOk result (λ kind. kind ≡ spec.clock_kind scope.now.linked.now.names source.now) }
{
    if source.is_empty() {
        return Ok(ClockKind::Virtual);
    }
    let bit = source_bit(alloc, &scope.tables.inputs, source)?;
    Ok(sourced_kind(&scope.linked.names.clock, &bit))
}

fn sourced_kind(clock: &Option<PortName>, bit: &Option<Name>) -> ClockKind
    ensures { result ≡ (if spec.is_clock_port clock.now bit.now then Judged else Other) }
{
    if is_clock_port(clock, bit) {
        ClockKind::Judged
    } else {
        ClockKind::Other
    }
}

fn is_clock_port(clock: &Option<PortName>, bit: &Option<Name>) -> bool
    ensures { result ≡ spec.is_clock_port clock.now bit.now }
{
    match (clock, bit) {
        (Some(port), Some(bit)) => *bit == port.name,
        _ => false,
    }
}
