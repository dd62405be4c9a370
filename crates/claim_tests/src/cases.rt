//! Sound designs, and claims that fit them.
ghost use Rattle.std.specs.Prelude.{All, IfOk};
ghost use Rattle.net_model.specs.Netlist.{IsSound};
ghost use Rattle.net_model.specs.Fits.{Fits};

use net_model::{Claim, Design};
use net_samples::{Ask, Part, case_of, design};
use sdcv_base::Seq;
use std::alloc::{AllocError, Global};
use std::process::Abort;

/// A design, which is sound.
pub fn sound_design(rt: &impl Abort, alloc: Global, parts: &[Part]) -> Result<Design, AllocError>
    ensures { IfOk result (λ d. IsSound d) }
{
    let design = design(alloc, parts)?;
    assert!(rt; design.check(alloc).is_ok());
    Ok(design)
}

fn claim_of(
    rt: &impl Abort,
    alloc: Global,
    design: &Design,
    query: &[Ask],
) -> Result<Claim, AllocError>
    ensures { IfOk result (Fits design.now) }
{
    let claim = case_of(alloc, &[], query)?.claim;
    assert!(rt; claim.fits(design));
    Ok(claim)
}

/// Claims that fit the design.
pub fn claims_of(
    rt: &impl Abort,
    alloc: Global,
    design: &Design,
    queries: &[&[Ask]],
) -> Result<Seq<Claim>, AllocError>
    ensures { IfOk result (All (Fits design.now)) }
{
    let mut claims = Seq::new(alloc);
    for query in queries {
        claims.push(claim_of(rt, alloc, design, query)?)?;
    }
    Ok(claims)
}
