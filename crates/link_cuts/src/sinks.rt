//! What cells on the clock read.
ghost use Rattle.std.specs.Prelude.{◌≡◌, map, filter, All, IfOk};
ghost use Rattle.std.specs.List.{list_any};
ghost use Rattle.link_defs.specs.declared.cuts.CutPin.{CutPin as PinRecord};
ghost use Rattle.link_defs.specs.Cuts.{is_clocked as spec_clocked, may_read as spec_may_read, is_in as spec_is_in};
ghost use Rattle.sdcv_base.specs.Seqs.{is_marked as marked};
ghost use Rattle.link_design.specs.Trees.{tree_of};
ghost use Rattle.link_cuts.specs.Cutting.{IsInCells, is_sink_at, reads_by};

use crate::marks::is_marked;
use crate::places::{PinPlace, pin_at};
use crate::rows::CutRows;
use link_defs::{CutCell, CutPin, Way};
use link_design::ClockRows;
use sdcv_base::Seq;
use std::alloc::{AllocError, Global};

/// Whether such a pin may read its net.
fn may_read(way: Way) -> bool
    ensures { result ≡ spec_may_read way }
{
    match way {
        Way::In => true,
        Way::Out => false,
        Way::Either => true,
    }
}

/// Whether such a pin is known to read its net.
fn is_in(way: Way) -> bool
    ensures { result ≡ spec_is_in way }
{
    match way {
        Way::In => true,
        Way::Out => false,
        Way::Either => false,
    }
}

/// Whether one of these pins stands on a net of the clock tree after an even number of inversions.
fn has_even(tree: &ClockRows, pins: &[CutPin]) -> bool
    ensures { result ≡ list_any (λ (p : PinRecord). marked tree.now.even p.net) pins.now }
{
    pins.iter().any(|pin| is_marked(&tree.even, pin.net))
}

/// Whether a cell captures at the clock's edge.
fn is_clocked(tree: &ClockRows, cell: &CutCell) -> bool
    ensures { result ≡ spec_clocked (tree_of tree.now) cell.now }
{
    cell.clocked && has_even(tree, cell.pins.as_slice())
}

/// For each cell whether it captures at the clock's edge.
pub(crate) fn clocked_row(
    alloc: Global,
    cells: &Seq<CutCell>,
    tree: &ClockRows,
) -> Result<Seq<bool>, AllocError>
    ensures { IfOk result (λ row. row ≡ map (spec_clocked (tree_of tree.now)) cells.now) }
{
    let mut row = Seq::new(alloc);
    for cell in cells.as_slice() {
        row.push(is_clocked(tree, cell))?;
    }
    Ok(row)
}

/// Whether a pin reads a net that is no clock's and that the design drives.
fn reads_data(rows: &CutRows, pin: &CutPin) -> bool
    ensures { result ≡ reads_by rows.now pin.now }
{
    let driven = may_read(pin.way) && is_marked(&rows.driven, pin.net);
    let free = is_in(pin.way) && is_marked(&rows.free, pin.net);
    !is_marked(&rows.tree.all, pin.net) && (driven || free)
}

/// Whether the pin at a place is a sink.
pub(crate) fn is_sink(rows: &CutRows, cells: &Seq<CutCell>, at: PinPlace) -> bool
    requires { IsInCells cells.now at }
    ensures { result ≡ is_sink_at rows.now cells.now at }
{
    is_marked(&rows.clocked, at.cell) && reads_data(rows, pin_at(cells, at))
}

/// The sinks among these pins.
pub(crate) fn sink_places(
    alloc: Global,
    cells: &Seq<CutCell>,
    places: &Seq<PinPlace>,
    rows: &CutRows,
) -> Result<Seq<PinPlace>, AllocError>
    requires { All (IsInCells cells.now) places.now }
    ensures { IfOk result (λ sinks. sinks ≡ filter (is_sink_at rows.now cells.now) places.now) }
{
    let mut sinks = Seq::new(alloc);
    for at in places.as_slice() {
        if is_sink(rows, cells, *at) {
            sinks.push(*at)?;
        }
    }
    Ok(sinks)
}
