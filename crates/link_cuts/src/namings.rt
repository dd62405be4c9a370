//! What the names of cells that are cut out go by.
ghost use Rattle.std.specs.Prelude.{length};
ghost use Rattle.link_cuts.specs.Cutting.{nets_at};
ghost use Rattle.link_cuts.specs.Firsts.{IsFirstRow};

use crate::rows::CutPins;
use link_defs::CutCell;
use sdcv_base::Seq;

/// Cells that are cut out of a circuit, with what was found of their pins; for each net of the circuit the place of the free pin
/// on it, and the number of free pins where there is none; and the design's number of each net, where it has one, and of how many
/// nets the design is.
#[derive(Drop)]
pub(crate) struct Naming<'a> {
    pub(crate) cells: &'a Seq<CutCell>,
    pub(crate) pins: &'a CutPins,
    pub(crate) places: Seq<usize>,
    pub(crate) numbers: &'a Seq<usize>,
    pub(crate) nets: usize,
    ghost placed: { IsFirstRow (length pins.now.rows.free) (nets_at cells.now pins.now.free) places },
}
