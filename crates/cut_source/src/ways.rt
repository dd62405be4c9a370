//! Which way a pin goes.
ghost use Rattle.std.specs.Prelude.{◌≡◌};
ghost use Rattle.std.specs.Option.{option_copied};
ghost use Rattle.texts.specs.Names.{is_among};
ghost use Rattle.cut_source.specs.Pins as spec;

use cell_types::{Cell, CellKind};
use link_defs::Way;
use netlist_types::Dir;
use sdcv_base::Name;
use texts::after;

/// Whether the pin is one of these.
fn is_listed(pins: &[Name], pin: &Name) -> bool
    ensures { result ≡ is_among pin.now pins.now }
{
    pins.iter().any(|one| *pin == *one)
}

/// Whether it is an index in brackets.
fn is_index(text: &[u8]) -> bool
    ensures { result ≡ spec.is_index text.now }
{
    text.starts_with(b"[") && text.ends_with(b"]")
}

/// Whether the pin is a bit of the bus.
fn is_bit_of(pin: &[u8], bus: &[u8]) -> bool
    ensures { result ≡ spec.is_bit_of pin.now bus.now }
{
    pin.starts_with(bus) && is_index(after(pin, bus.len()))
}

/// Whether the pin is a bit of one of these.
fn has_bit(names: &[Name], pin: &Name) -> bool
    ensures { result ≡ spec.has_bit names.now pin.now }
{
    names
        .iter()
        .any(|bus| is_bit_of(pin.as_bytes(), bus.as_bytes()))
}

/// The outputs of a cell that can't be modelled.
fn outs_of(kind: &CellKind) -> &[Name]
    ensures { result.now ≡ spec.outs_of kind.now }
{
    match kind {
        CellKind::Comb(_) => &[],
        CellKind::Flop(_) => &[],
        CellKind::Gate(_) => &[],
        CellKind::Other(other) => other.outs.as_slice(),
    }
}

/// The way of a pin among inputs and outputs, some of which are buses.
fn way_among(ins: &[Name], outs: &[Name], pin: &Name) -> Way
    ensures { result ≡ spec.way_among ins.now outs.now pin.now }
{
    if is_listed(ins, pin) {
        return Way::In;
    }
    if is_listed(outs, pin) {
        return Way::Out;
    }
    if has_bit(ins, pin) {
        return Way::In;
    }
    if has_bit(outs, pin) {
        return Way::Out;
    }
    Way::Either
}

/// The way of a pin of an instance of this cell, if it is of one; a power pin has none.
pub(crate) fn way_of(cell: Option<&Cell>, pin: &Name) -> Option<Way>
    ensures { result ≡ spec.way_of (option_copied cell.entry) pin.now }
{
    match cell {
        Some(cell) => way_in(cell, pin),
        None => Some(Way::Either),
    }
}

/// The way of a pin of this cell.
fn way_in(cell: &Cell, pin: &Name) -> Option<Way>
    ensures { result ≡ spec.way_in cell.now pin.now }
{
    if is_listed(cell.power.as_slice(), pin) {
        return None;
    }
    Some(way_among(cell.inputs.as_slice(), outs_of(&cell.kind), pin))
}

/// Whether it is known to drive.
pub(crate) fn is_out(way: Option<Way>) -> bool
    ensures { result ≡ spec.is_out way }
{
    match way {
        Some(Way::Out) => true,
        Some(Way::In) => false,
        Some(Way::Either) => false,
        None => false,
    }
}

/// The way of a port.
pub(crate) fn port_way(dir: Dir) -> Way
    ensures { result ≡ spec.port_way dir }
{
    match dir {
        Dir::Input => Way::In,
        Dir::Output => Way::Out,
        Dir::Inout => Way::Either,
    }
}
