//! Which input bit the source of a clock is, and by which name a clock goes.
ghost use Rattle.std.specs.Prelude.{◌≡◌, ◌<◌, ℕ, All, IfOk, length, map, flat_map};
ghost use Rattle.std.specs.List.{list_all};
ghost use Rattle.std.specs.Str.{bytes_eq};
ghost use Rattle.sdc_settings.specs.Inputs.{port_places, name_at, is_port_object as names_ports};
ghost use Rattle.sdc_settings.specs.Sources as spec;

use crate::inputs::{add_port_places, is_port_object};
use linked_types::PortName;
use script_types::Object;
use sdcv_base::{Name, Seq};
use std::alloc::{AllocError, Global};

/// The name by which a clock goes: its own, and without one that of the input bit that its source is.
pub fn clock_name(
    alloc: Global,
    inputs: &Seq<PortName>,
    own: &Option<Name>,
    source: &Seq<Object>,
) -> Result<Option<Name>, AllocError>
    ensures { IfOk result (λ name. name ≡ spec.clock_name inputs.now own.now source.now) }
{
    match own {
        Some(own) => Ok(Some(own.copy(alloc)?)),
        None => source_bit(alloc, inputs, source),
    }
}

/// The input bit that the source of a clock is.
pub fn source_bit(
    alloc: Global,
    inputs: &Seq<PortName>,
    source: &Seq<Object>,
) -> Result<Option<Name>, AllocError>
    ensures { IfOk result (λ bit. bit ≡ spec.source_bit inputs.now source.now) }
{
    if !are_ports(source) {
        return Ok(None);
    }
    let places = source_places(alloc, source, inputs)?;
    one_name(alloc, inputs, &places)
}

// The places of the input bits that the objects name.
fn source_places(
    alloc: Global,
    source: &Seq<Object>,
    inputs: &Seq<PortName>,
) -> Result<Seq<usize>, AllocError>
    ensures value { IfOk result (λ places. places ≡ flat_map (port_places inputs.now) source.now) }
    ensures within { IfOk result (All (λ (place : ℕ). place < length inputs.now)) }
{
    let mut places = Seq::new(alloc);
    for k in 0..source.len() {
        add_port_places(inputs, source.item(k), &mut places)?;
    }
    Ok(places)
}

fn are_ports(objects: &Seq<Object>) -> bool
    ensures { result ≡ list_all names_ports objects.now }
{
    for k in 0..objects.len() {
        if !is_port_object(objects.item(k)) {
            return false;
        }
    }
    true
}

// The name of the input bits at these places, if they have one name.
fn one_name(
    alloc: Global,
    inputs: &Seq<PortName>,
    places: &Seq<usize>,
) -> Result<Option<Name>, AllocError>
    requires { All (λ (place : ℕ). place < length inputs.now) places.now }
    ensures { IfOk result (λ name. name ≡ spec.one_name (map (name_at inputs.now) places.now)) }
{
    if places.is_empty() {
        return Ok(None);
    }
    let name = &inputs.item(places.at(0)).name;
    if !are_named(inputs, places, name) {
        return Ok(None);
    }
    Ok(Some(name.copy(alloc)?))
}

// Whether all input bits at these places have this name.
fn are_named(inputs: &Seq<PortName>, places: &Seq<usize>, name: &Name) -> bool
    requires { All (λ (place : ℕ). place < length inputs.now) places.now }
    ensures { result ≡ list_all (bytes_eq name.now) (map (name_at inputs.now) places.now) }
{
    for k in 0..places.len() {
        if *name != inputs.item(places.at(k)).name {
            return false;
        }
    }
    true
}
