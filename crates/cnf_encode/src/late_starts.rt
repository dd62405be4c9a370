//! What is late in a query about a claim.
ghost use Rattle.std.specs.Prelude.{◌≡◌, IfOk};
ghost use Rattle.net_model.specs.Netlist.{IsSound};
ghost use Rattle.net_model.specs.Fits.{Fits};
ghost use Rattle.cnf_encode.specs.Late.{IsLateStart};

use crate::cells::Cells;
use crate::point_rows::in_order;
use crate::prepared_designs::Prepared;
use frame_unroll::{Subject, start_nets};
use net_model::Claim;
use sdcv_base::Seq;
use std::alloc::{AllocError, Global};

/// What a query about a claim is about, the nets of the claim's start, ascending, and the cubes of the design's functions.
#[derive(Drop)]
pub struct LateStart<'a> {
    pub subject: Subject<'a>,
    pub nets: Seq<usize>,
    pub cells: &'a Cells,
}

impl<'a> LateStart<'a> {
    /// The claim about this design, made once for a query. It takes the time of the nets to which the start leads.
    pub fn of(
        alloc: Global,
        prepared: &'a Prepared,
        claim: &'a Claim,
    ) -> Result<LateStart<'a>, AllocError>
        requires sound { IsSound prepared.now.design }
        requires fits { Fits prepared.now.design claim.now }
        ensures late { IfOk result IsLateStart }
        ensures design { IfOk result (λ late. late.subject.design.now ≡ prepared.now.design) }
        ensures coding { IfOk result (λ late. late.subject.tables.now.coding ≡ prepared.now.coding) }
        ensures claim { IfOk result (λ late. late.subject.claim.now ≡ claim.now) }
    {
        let subject = Subject::of(alloc, prepared.tables(), claim)?;
        let nets = in_order(alloc, &start_nets(alloc, prepared.bare(), claim)?)?;
        Ok(LateStart {
            subject,
            nets,
            cells: prepared.cells(),
        })
    }
}
