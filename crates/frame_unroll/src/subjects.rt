//! What a query about a claim is about.
ghost use Rattle.std.specs.Prelude.{◌≡◌, IfOk};
ghost use Rattle.net_model.specs.Netlist.{IsSound};
ghost use Rattle.net_model.specs.Fits.{Fits};
ghost use Rattle.frame_unroll.specs.Reading.{IsSubject};

use crate::moved_nets::MovedNets;
use crate::tables::Tables;
use net_model::{Claim, Design};
use std::alloc::{AllocError, Global};

/// A design and a claim that fits it, with what each query about the two reads: the tables of the design, and the nets that a
/// late start moves in each layer.
#[derive(Drop)]
pub struct Subject<'a> {
    pub design: &'a Design,
    pub claim: &'a Claim,
    pub tables: &'a Tables<'a>,
    pub moved: MovedNets,
}

impl<'a> Subject<'a> {
    /// The subject of these two, made once for a query. What depends on the design alone is lent, so it takes the time of the
    /// nets to which the start leads.
    pub fn of(
        alloc: Global,
        tables: &'a Tables<'a>,
        claim: &'a Claim,
    ) -> Result<Subject<'a>, AllocError>
        requires sound { IsSound tables.now.design }
        requires fits { Fits tables.now.design claim.now }
        ensures design { IfOk result (λ s. s.design.now ≡ tables.now.design) }
        ensures coding { IfOk result (λ s. s.tables.now.coding ≡ tables.now.coding) }
        ensures claim { IfOk result (λ s. s.claim.now ≡ claim.now) }
        ensures subject { IfOk result IsSubject }
    {
        let design = tables.design();
        Ok(Subject {
            design,
            claim,
            tables,
            moved: MovedNets::of(alloc, design, claim, tables.readers())?,
        })
    }
}
