//! What the keys of a query are about.
ghost use Rattle.std.specs.Prelude.{◌≡◌, ◌≤◌, IfOk};
ghost use Rattle.net_model.specs.Netlist.{IsSound};
ghost use Rattle.cnf_encode.specs.Coned.{IsConeOf};

use crate::cells::Cells;
use crate::point_rows::point_rows;
use crate::prepared_designs::Prepared;
use frame_unroll::{Driver, Frames, Span};
use net_model::Design;
use sdcv_base::Seq;
use std::alloc::{AllocError, Global};

/// What a query's keys are about: a design with what drives its nets, the cubes of its functions and the settings of its inputs, and for each cycle the
/// inputs, gates and register bits, by number. Resets are active in the cycles below `live`.
#[derive(Drop)]
pub struct Cone<'a> {
    pub design: &'a Design,
    pub drivers: &'a Seq<Driver>,
    pub cells: &'a Cells,
    pub live: usize,
    pub fixed: &'a Seq<Option<bool>>,
    pub resets: &'a Seq<Option<bool>>,
    pub inputs: Seq<Seq<usize>>,
    pub gates: Seq<Seq<usize>>,
    pub bits: Seq<Seq<usize>>,
}

impl<'a> Cone<'a> {
    /// The cone of these keys in the cycles up to the last of the span, by the tables of the design.
    ///
    /// It takes the time that the keys take, and that of sorting each row.
    pub fn of(
        alloc: Global,
        prepared: &'a Prepared,
        frames: &Frames,
        span: Span,
    ) -> Result<Cone<'a>, AllocError>
        requires sound { IsSound prepared.now.design }
        requires cycles { span.cycles ≤ 144 }
        ensures cone { IfOk result (IsConeOf frames.now span.cycles) }
        ensures design { IfOk result (λ cone. cone.design.now ≡ prepared.now.design) }
        ensures coding { IfOk result (λ cone. cone.cells.now.list.coding ≡ prepared.now.coding) }
        ensures live { IfOk result (λ cone. cone.live ≡ span.live) }
    {
        let count = span.cycles + 1;
        let points = prepared.points();
        Ok(Cone {
            design: prepared.bare(),
            drivers: prepared.drivers(),
            cells: prepared.cells(),
            live: span.live,
            fixed: &points.fixed,
            resets: &points.resets,
            inputs: point_rows(alloc, frames, &points.inputs, count)?,
            gates: point_rows(alloc, frames, &points.gates, count)?,
            bits: point_rows(alloc, frames, &points.bits, count)?,
        })
    }
}
