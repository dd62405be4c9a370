//! Outputs of cells that are cut out, on nets that the circuit drives.
ghost use Rattle.std.specs.Prelude.{◌≡◌, IfOk};
ghost use Rattle.link_design.specs.Lawful.{IsLawfulCircuit};
ghost use Rattle.link_cuts.specs.Checks.{IsDrivenPin};
ghost use Rattle.link_cuts.specs.Outs.{is_driven, is_out as spec_is_out, IsDrivenOf, IsDrivenPlace};

use crate::marks::{is_marked, row_of};
use crate::places::PinPlace;
use link_defs::{Circuit, CutCell, CutPin, Way};
use link_design::all_drivers;
use sdcv_base::Seq;
use std::alloc::{AllocError, Global};

/// The first output of a cell that is cut out on a net that the circuit drives, if there is one.
pub fn driven_pin(
    alloc: Global,
    circuit: &Circuit,
    cells: &Seq<CutCell>,
) -> Result<Option<PinPlace>, AllocError>
    requires lawful { IsLawfulCircuit circuit.now }
    ensures { IfOk result (IsDrivenPin circuit.now cells.now) }
{
    let drivers = all_drivers(alloc, circuit)?;
    let driven = row_of(alloc, &drivers, circuit.nets)?;
    Ok(driven_place(&driven, cells))
}

/// The place of the first output on a marked net.
fn driven_place(driven: &Seq<bool>, cells: &Seq<CutCell>) -> Option<PinPlace>
    ensures { IsDrivenPlace driven.now cells.now result }
{
    for cell in 0..cells.len() {
        if let Some(pin) = driven_of(driven, &cells.item(cell).pins) {
            return Some(PinPlace { cell, pin });
        }
    }
    None
}

/// The place of the first output on a marked net, among the pins of a cell.
fn driven_of(driven: &Seq<bool>, pins: &Seq<CutPin>) -> Option<usize>
    ensures { IsDrivenOf driven.now pins.now result }
{
    for pin in 0..pins.len() {
        if is_driven(driven, pins.item(pin)) {
            return Some(pin);
        }
    }
    None
}

/// Whether a pin is an output on a marked net.
fn is_driven(driven: &Seq<bool>, pin: &CutPin) -> bool
    ensures { result ≡ is_driven driven.now pin.now }
{
    is_out(pin.way) && is_marked(driven, pin.net)
}

/// Whether such a pin is known to drive its net.
fn is_out(way: Way) -> bool
    ensures { result ≡ spec_is_out way }
{
    match way {
        Way::In => false,
        Way::Out => true,
        Way::Either => false,
    }
}
