//! Sound samples.
ghost use Rattle.std.specs.Prelude.{IfOk};
ghost use Rattle.net_model.specs.Netlist.{IsSound};
ghost use Rattle.net_model.specs.Fits.{Fits};

use net_model::Design;
use net_samples::{Ask, Case, Part, case_of, design};
use std::alloc::{AllocError, Global};
use std::process::Abort;

/// A design, which is sound.
pub fn sound_design(rt: &impl Abort, alloc: Global, parts: &[Part]) -> Result<Design, AllocError>
    ensures { IfOk result IsSound }
{
    let design = design(alloc, parts)?;
    assert!(rt; design.check(alloc).is_ok());
    Ok(design)
}

/// A query about a design, which is sound, and whose claim fits it.
pub fn sound_case(
    rt: &impl Abort,
    alloc: Global,
    parts: &[Part],
    query: &[Ask],
) -> Result<Case, AllocError>
    ensures sound { IfOk result (λ case. IsSound case.design) }
    ensures fits { IfOk result (λ case. Fits case.design case.claim) }
{
    let case = case_of(alloc, parts, query)?;
    assert!(rt; case.design.check(alloc).is_ok());
    assert!(rt; case.claim.fits(&case.design));
    Ok(case)
}
