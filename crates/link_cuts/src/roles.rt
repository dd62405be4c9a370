//! What the pins of cells that are cut out are.
ghost use Rattle.std.specs.Prelude.{◌≡◌, ◌+◌, IfOk};
ghost use Rattle.std.specs.Option.{option_copied};
ghost use Rattle.link_defs.specs.Cuts.{net_of};
ghost use Rattle.link_cuts.specs.Cutting.{IsInCells, nets_at, own_pin, pin_at as spec_pin_at};
ghost use Rattle.link_cuts.specs.Roles.{drives_by, is_named as spec_named, is_source_at, number_in, outs_by, owner_of, place_in};
ghost use Rattle.link_cuts.specs.Roles.{role_at, with_sink as spec_with};

use crate::firsts::first_row;
use crate::frees::may_drive;
use crate::marks::is_marked;
use crate::namings::Naming;
use crate::places::{PinPlace, pin_at};
use crate::rows::CutPins;
use crate::sinks::is_sink;
use link_defs::{CutCell, CutPin};
use linked_types::PinRole;
use sdcv_base::{Name, Seq};
use std::alloc::{AllocError, Global};

/// What the names of these cells go by.
pub(crate) fn naming_of<'a>(
    alloc: Global,
    pins: &'a CutPins,
    cells: &'a Seq<CutCell>,
    numbers: &'a Seq<usize>,
    nets: usize,
) -> Result<Naming<'a>, AllocError>
    ensures cells { IfOk result (λ n. n.cells.now ≡ cells.now) }
    ensures pins { IfOk result (λ n. n.pins.now ≡ pins.now) }
    ensures numbers { IfOk result (λ n. n.numbers.now ≡ numbers.now) }
    ensures nets { IfOk result (λ n. n.nets ≡ nets) }
{
    let free = nets_there(alloc, cells, &pins.free)?;
    let places = first_row(alloc, &free, pins.rows.free.len())?;
    Ok(Naming {
        cells,
        pins,
        places,
        numbers,
        nets,
    })
}

/// The nets of the pins at places, and 0 where there is no pin.
fn nets_there(
    alloc: Global,
    cells: &Seq<CutCell>,
    places: &Seq<PinPlace>,
) -> Result<Seq<usize>, AllocError>
    ensures { IfOk result (λ nets. nets ≡ nets_at cells.now places.now) }
{
    let mut nets = Seq::new(alloc);
    for k in 0..places.len() {
        nets.push(net_there(cells, places.at(k)))?;
    }
    Ok(nets)
}

/// The net of the pin at a place, and 0 where there is no pin.
fn net_there(cells: &Seq<CutCell>, at: PinPlace) -> usize
    ensures { result ≡ net_of (spec_pin_at cells.now at) }
{
    if at.cell < cells.len() {
        own_net(cells.item(at.cell), at.pin)
    } else {
        0
    }
}

/// The net of the pin of a cell at a place, and 0 where there is no pin.
fn own_net(cell: &CutCell, pin: usize) -> usize
    ensures { result ≡ (own_pin cell.now pin).net }
{
    if pin < cell.pins.len() {
        cell.pins.item(pin).net
    } else {
        0
    }
}

/// The number of a net.
fn number(n: &Naming, net: usize) -> usize
    ensures { result ≡ number_in n.now net }
{
    if net < n.numbers.len() {
        n.numbers.at(net)
    } else {
        n.nets
    }
}

/// The place of the free pin on a net.
fn place(n: &Naming, net: usize) -> usize
    ensures { result ≡ place_in n.now net }
{
    if net < n.places.len() {
        n.places.at(net)
    } else {
        n.pins.free.len()
    }
}

/// The cell that owns a net, if it is a free one.
fn owner<'a>(n: &'a Naming, net: usize) -> Option<&'a CutCell>
    ensures { option_copied result ≡ owner_of n.now net }
{
    let place = place(n, net);
    if place < n.pins.free.len() {
        return n.cells.as_slice().get(n.pins.free.at(place).cell);
    }
    None
}

/// Whether there is a cell, and it has this name.
fn is_named(name: &Name, cell: Option<&CutCell>) -> bool
    ensures { result ≡ spec_named name.now (option_copied cell.entry) }
{
    match cell {
        Some(cell) => *name == cell.name,
        None => false,
    }
}

/// Whether a pin may drive a free net.
fn drives(n: &Naming, pin: &CutPin) -> bool
    ensures { result ≡ drives_by n.now.pins.now.rows pin.now }
{
    may_drive(pin.way) && is_marked(&n.pins.rows.free, pin.net)
}

/// Whether the pin at a place drives a free net of its cell's own, and its cell captures at the clock's edge.
fn is_source(n: &Naming, at: PinPlace) -> bool
    requires { IsInCells n.now.cells.now at }
    ensures { result ≡ is_source_at n.now at }
{
    let cell = n.cells.item(at.cell);
    let pin = pin_at(n.cells, at);
    let owned = drives(n, pin) && is_named(&cell.name, owner(n, pin.net));
    is_marked(&n.pins.rows.clocked, at.cell) && owned
}

/// What the pin at a place is, after so many sinks.
pub(crate) fn role(
    alloc: Global,
    n: &Naming,
    at: PinPlace,
    sinks: usize,
) -> Result<PinRole, AllocError>
    requires { IsInCells n.now.cells.now at }
    ensures { IfOk result (λ role. role ≡ role_at n.now sinks at) }
{
    let pin = pin_at(n.cells, at);
    if is_source(n, at) {
        return Ok(PinRole::Source(total(n.pins.inputs, place(n, pin.net))?));
    }
    if is_sink(&n.pins.rows, n.cells, at) {
        return Ok(PinRole::Sink(total(n.pins.outputs, sinks)?));
    }
    if drives(n, pin) {
        return Ok(PinRole::Drive(number(n, pin.net)));
    }
    Ok(PinRole::Load(Seq::new(alloc)))
}

/// The sum of two counts. No memory holds as many as don't fit.
fn total(a: usize, b: usize) -> Result<usize, AllocError>
    ensures { IfOk result (λ count. count ≡ a + b) }
{
    a.checked_add(b).ok_or(AllocError)
}

/// How many sinks there are with the pin at a place.
pub(crate) fn with_sink(n: &Naming, at: PinPlace, sinks: usize) -> Result<usize, AllocError>
    requires { IsInCells n.now.cells.now at }
    ensures { IfOk result (λ count. count ≡ spec_with n.now sinks at) }
{
    if is_sink(&n.pins.rows, n.cells, at) {
        return total(sinks, 1);
    }
    Ok(sinks)
}

/// The free nets on which the pins of a cell stand that may drive.
pub(crate) fn free_outs(alloc: Global, n: &Naming, cell: &CutCell) -> Result<Seq<usize>, AllocError>
    ensures { IfOk result (λ outs. outs ≡ outs_by n.now cell.now) }
{
    let mut outs = Seq::new(alloc);
    for k in 0..cell.pins.len() {
        let pin = cell.pins.item(k);
        if drives(n, pin) {
            outs.push(number(n, pin.net))?;
        }
    }
    Ok(outs)
}
