//! The literals of a clause that says where a cube doesn't hold.
ghost use Rattle.std.specs.Prelude.{◌≡◌, length, map, IfOk};
ghost use Rattle.proof_log.specs.Literals.{negated};
ghost use Rattle.cnf_encode.specs.Chosen.{chosen};

use net_model::Tern;
use proof_log::Lit;
use smallvec::SmallVec;
use std::alloc::{AllocError, Global};

/// For each place that is fixed the literal for 0 or the one for 1.
pub fn cube_lits(
    alloc: Global,
    zeros: &[Lit],
    ones: &[Lit],
    fixed: &[Tern],
) -> Result<SmallVec<Lit, 8>, AllocError>
    requires ones { length ones.now ≡ length zeros.now }
    requires fixed { length fixed.now ≡ length zeros.now }
    ensures { IfOk result (λ v. v.items ≡ chosen zeros.now ones.now fixed.now) }
{
    let mut lits = SmallVec::new(alloc);
    for i in 0..fixed.len() {
        match fixed[i] {
            Tern::Zero => lits.push(zeros[i])?,
            Tern::One => lits.push(ones[i])?,
            Tern::Unknown => {}
        }
    }
    Ok(lits)
}

/// The complements of these literals.
pub fn complements(alloc: Global, lits: &[Lit]) -> Result<SmallVec<Lit, 8>, AllocError>
    ensures { IfOk result (λ v. v.items ≡ map negated lits.now) }
{
    let mut out = SmallVec::new(alloc);
    for l in lits {
        out.push(l.negated())?;
    }
    Ok(out)
}
