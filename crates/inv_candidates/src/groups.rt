//! The registers near a claim.
ghost use Rattle.std.specs.Prelude.{◌≡◌, length, IfOk};
ghost use Rattle.net_model.specs.Netlist.{AllBelow, IsSound};
ghost use Rattle.net_model.specs.Fits.{Fits};
ghost use Rattle.inv_candidates.specs.Near.{Differ, IsGroup};
ghost use Rattle.inv_candidates.specs.Levels.{ascending_two, own_regs};

use crate::levels::add_level;
use net_model::{Claim, Design, End, Start};
use sdcv_base::Seq;
use std::alloc::{AllocError, Global};

/// The first sixteen registers near a claim: level by level, and within a level by their numbers.
///
/// The first level has the claim's start and end, where they are registers, and each next one those that feed a register of the
/// level before. It takes a look at each gate for each level.
pub fn group(alloc: Global, design: &Design, claim: &Claim) -> Result<Seq<usize>, AllocError>
    requires sound { IsSound design.now }
    requires fits { Fits design.now claim.now }
    ensures group { IfOk result (IsGroup design.now claim.now) }
    ensures differ { IfOk result Differ }
    ensures names { IfOk result (AllBelow (length design.now.regs)) }
{
    let mut group = own_regs(alloc, claim)?;
    loop {
        let before = group.len();
        add_level(alloc, design, &mut group)?;
        if group.len() == before {
            return Ok(group);
        }
    }
}

/// A claim's own registers, ascending.
fn own_regs(alloc: Global, claim: &Claim) -> Result<Seq<usize>, AllocError>
    ensures { IfOk result (λ regs. regs ≡ own_regs claim.now.start claim.now.end) }
{
    match (claim.start, claim.end) {
        (Start::Reg(start), End::Reg(end)) => ascending_two(alloc, start, end),
        (Start::Reg(start), End::Output(_)) => Seq::one(alloc, start),
        (Start::Input(_), End::Reg(end)) => Seq::one(alloc, end),
        (Start::Input(_), End::Output(_)) => Ok(Seq::new(alloc)),
    }
}

/// The one or two registers, ascending.
fn ascending_two(alloc: Global, a: usize, b: usize) -> Result<Seq<usize>, AllocError>
    ensures { IfOk result (λ regs. regs ≡ ascending_two a b) }
{
    let mut regs = Seq::one(alloc, a.min(b))?;
    if a != b {
        regs.push(a.max(b))?;
    }
    Ok(regs)
}
