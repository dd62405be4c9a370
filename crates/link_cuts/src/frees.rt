//! The free nets, each by the first pin that may drive it.
ghost use Rattle.std.specs.Prelude.{◌≡◌, ◌&&◌, not, [], length, map, filter, All, IfOk};
ghost use Rattle.sdcv_base.specs.Seqs.{is_marked as marked};
ghost use Rattle.link_defs.specs.Cuts.{first_pins, may_drive as spec_may_drive, owned_by};
ghost use Rattle.link_defs.specs.declared.cuts.CutCell.{CutCell as CellRecord};
ghost use Rattle.link_clocks.specs.Netlists.{AreCellsBelow};
ghost use Rattle.link_cuts.specs.Cutting.{IsInCells, is_loose_by, pin_at as spec_pin_at};

use crate::marks::is_marked;
use crate::places::{PinPlace, pin_at};
use link_defs::{CutCell, CutPin, Way};
use sdcv_base::Seq;
use std::alloc::{AllocError, Global};

/// Marks of the nets that something of a circuit drives, and of those that something reads.
#[derive(Drop)]
pub(crate) struct NetMarks {
    pub(crate) driven: Seq<bool>,
    pub(crate) read: Seq<bool>,
}

/// Whether such a pin may drive its net.
pub(crate) fn may_drive(way: Way) -> bool
    ensures { result ≡ spec_may_drive way }
{
    match way {
        Way::In => false,
        Way::Out => true,
        Way::Either => true,
    }
}

/// Whether a pin may drive its net, nothing of the circuit drives it, and something reads it.
fn is_loose(marks: &NetMarks, pin: &CutPin) -> bool
    ensures { (x : CellRecord) → result ≡ is_loose_by marks.now (owned_by x pin.now) }
{
    may_drive(pin.way) && (is_marked(&marks.read, pin.net) && !is_marked(&marks.driven, pin.net))
}

/// Whether a pin is loose and its net is not among those that are marked as seen.
fn is_new(marks: &NetMarks, seen: &Seq<bool>, pin: &CutPin) -> bool
    ensures { (x : CellRecord) → result ≡ (is_loose_by marks.now (owned_by x pin.now) && not (marked seen.now pin.now.net)) }
{
    is_loose(marks, pin) && !is_marked(seen, pin.net)
}

/// Of these pins the first on each net that is loose.
pub(crate) fn free_places(
    alloc: Global,
    cells: &Seq<CutCell>,
    places: &Seq<PinPlace>,
    marks: &NetMarks,
) -> Result<Seq<PinPlace>, AllocError>
    requires at { All (IsInCells cells.now) places.now }
    requires nets { AreCellsBelow (length marks.now.read) cells.now }
    ensures free { IfOk result (λ free. map (spec_pin_at cells.now) free
        ≡ first_pins [] (filter (is_loose_by marks.now) (map (spec_pin_at cells.now) places.now))) }
    ensures at { IfOk result (All (IsInCells cells.now)) }
{
    let mut seen = Seq::filled(alloc, false, marks.read.len())?;
    let mut free = Seq::new(alloc);
    for place in 0..places.len() {
        let at = places.at(place);
        let pin = pin_at(cells, at);
        if is_new(marks, &seen, pin) {
            seen.put(pin.net, true);
            free.push(at)?;
        }
    }
    Ok(free)
}
