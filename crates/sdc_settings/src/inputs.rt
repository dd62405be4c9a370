//! Which input bits the objects of a script name.
ghost use Rattle.std.specs.Prelude.{◌≡◌, ◌++◌, OnOk, IfOk};
ghost use Rattle.sdc_settings.specs.Inputs as spec;

use glob::matches;
use linked_types::PortName;
use script_types::{Class, Object, Query};
use sdcv_base::{Name, Seq};
use std::alloc::{AllocError, Global};

/// Whether an object is a pattern that may name ports.
pub(crate) fn is_port_object(object: &Object) -> bool
    ensures { result ≡ spec.is_port_object object.now }
{
    match object {
        Object::Named(query) => is_port_class(query.class),
        Object::AllInputs | Object::AllOutputs | Object::AllRegisters | Object::AllClocks => false,
    }
}

fn is_port_class(class: Class) -> bool
    ensures { result ≡ spec.is_port_class class }
{
    match class {
        Class::Ports | Class::Any => true,
        Class::Cells | Class::Pins | Class::Nets | Class::Clocks => false,
    }
}

/// Whether the pattern matches a bit's name or that of its bus.
pub fn names_bit(query: &Query, port: &PortName) -> bool
    ensures { result ≡ spec.names_bit query.now port.now }
{
    matches(query.pattern.as_bytes(), port.name.as_bytes(), query.hier)
        || names_bus(query, &port.bus)
}

fn names_bus(query: &Query, bus: &Option<Name>) -> bool
    ensures { result ≡ spec.names_bus query.now bus.now }
{
    match bus {
        Some(bus) => matches(query.pattern.as_bytes(), bus.as_bytes(), query.hier),
        None => false,
    }
}

/// Adds the places of the input bits that an object names, none where it may name no ports.
pub(crate) fn add_port_places(
    inputs: &Seq<PortName>,
    object: &Object,
    found: &mut Seq<usize>,
) -> Result<(), AllocError>
    ensures { OnOk result (found.new ≡ found.old ++ spec.port_places inputs.now object.now) }
{
    match object {
        Object::Named(query) => add_named(inputs, query, found),
        Object::AllInputs | Object::AllOutputs | Object::AllRegisters | Object::AllClocks => Ok(()),
    }
}

fn add_named(
    inputs: &Seq<PortName>,
    query: &Query,
    found: &mut Seq<usize>,
) -> Result<(), AllocError>
    ensures { OnOk result (found.new ≡ found.old ++ spec.named_places query.now inputs.now) }
{
    for place in 0..inputs.len() {
        if names_bit(query, inputs.item(place)) {
            found.push(place)?;
        }
    }
    Ok(())
}

/// How a refusal or a warning names an object.
pub fn object_text(alloc: Global, object: &Object) -> Result<Name, AllocError>
    ensures { IfOk result (λ text. text ≡ spec.object_text object.now) }
{
    match object {
        Object::Named(query) => query.pattern.copy(alloc),
        Object::AllInputs => Name::new(alloc, b"all_inputs"),
        Object::AllOutputs => Name::new(alloc, b"all_outputs"),
        Object::AllRegisters => Name::new(alloc, b"all_registers"),
        Object::AllClocks => Name::new(alloc, b"all_clocks"),
    }
}
