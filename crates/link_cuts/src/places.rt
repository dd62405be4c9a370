//! Pins of cells by their places.
ghost use Rattle.std.specs.Prelude.{◌≡◌, ◌++◌, ◌<◌, length, map, flat_map, All, IfOk, OnOk};
ghost use Rattle.link_defs.specs.Cuts.{owned_pins, pin_name as spec_name};
ghost use Rattle.link_cuts.specs.Cutting.{cell_at, own_pin, pin_at, nets_at, IsInCells};

use link_defs::{CutCell, CutPin};
use link_items::pin_name;
use sdcv_base::{Name, Seq};
use std::alloc::{AllocError, Global};

/// The place of a pin: that of its cell, and its own among the cell's pins.
#[derive(Clone, Copy)]
pub struct PinPlace {
    pub cell: usize,
    pub pin: usize,
}

/// The pin at a place.
pub(crate) fn pin_at(cells: &Seq<CutCell>, at: PinPlace) -> &CutPin
    requires { IsInCells cells.now at }
    ensures { result.now ≡ own_pin (cell_at cells.now at.cell) at.pin }
{
    cells.item(at.cell).pins.item(at.pin)
}

/// The places of all pins, cell by cell.
pub(crate) fn pin_places(alloc: Global, cells: &Seq<CutCell>) -> Result<Seq<PinPlace>, AllocError>
    ensures pins { IfOk result (λ places. map (pin_at cells.now) places ≡ flat_map owned_pins cells.now) }
    ensures at { IfOk result (All (IsInCells cells.now)) }
{
    let mut places = Seq::new(alloc);
    for cell in 0..cells.len() {
        push_places(&mut places, cells, cell)?;
    }
    Ok(places)
}

/// Appends the places of the pins of the cell at a place.
fn push_places(
    places: &mut Seq<PinPlace>,
    cells: &Seq<CutCell>,
    cell: usize,
) -> Result<(), AllocError>
    requires cell { cell < length cells.now }
    requires at { All (IsInCells cells.now) places.old }
    ensures pins { OnOk result (map (pin_at cells.now) places.new ≡ map (pin_at cells.now) places.old ++ owned_pins (cell_at cells.now cell)) }
    ensures at { OnOk result (All (IsInCells cells.now) places.new) }
{
    for pin in 0..cells.item(cell).pins.len() {
        places.push(PinPlace { cell, pin })?;
    }
    Ok(())
}

/// The nets of the pins at places.
pub(crate) fn nets_of(
    alloc: Global,
    cells: &Seq<CutCell>,
    places: &Seq<PinPlace>,
) -> Result<Seq<usize>, AllocError>
    requires { All (IsInCells cells.now) places.now }
    ensures { IfOk result (λ nets. nets ≡ nets_at cells.now places.now) }
{
    let mut nets = Seq::new(alloc);
    for at in places.as_slice() {
        nets.push(pin_at(cells, *at).net)?;
    }
    Ok(nets)
}

/// The full names of the pins at places.
pub fn pin_names(
    alloc: Global,
    cells: &Seq<CutCell>,
    places: &Seq<PinPlace>,
) -> Result<Seq<Name>, AllocError>
    requires { All (IsInCells cells.now) places.now }
    ensures { IfOk result (λ names. names ≡ map spec_name (map (pin_at cells.now) places.now)) }
{
    let mut names = Seq::new(alloc);
    for place in 0..places.len() {
        let at = places.at(place);
        names.push(full_pin_name(alloc, cells, at)?)?;
    }
    Ok(names)
}

/// The full name of the pin at a place.
fn full_pin_name(alloc: Global, cells: &Seq<CutCell>, at: PinPlace) -> Result<Name, AllocError>
    requires { IsInCells cells.now at }
    ensures { IfOk result (λ name. name ≡ spec_name (pin_at cells.now at)) }
{
    let cell = cells.item(at.cell);
    pin_name(alloc, &cell.name, &pin_at(cells, at).name)
}
