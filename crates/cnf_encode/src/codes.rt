//! Literals over keys as literals over the numbers of these keys.
ghost use Rattle.std.specs.Prelude.{◌≡◌, map, All, IfOk, if◌then◌else◌};
ghost use Rattle.proof_log.specs.Literals.{negated};
ghost use Rattle.query_model.specs.Variables.{code_of};
ghost use Rattle.cnf_encode.specs.Coded.{HasKey, AreCodes, IsCode};

use frame_unroll::Frames;
use proof_log::Lit;
use query_model::KeyLit;
use smallvec::SmallVec;
use std::alloc::{AllocError, Global};

/// The literals of the numbers of these literals' keys. Up to 8 take no memory.
pub fn codes(
    alloc: Global,
    frames: &Frames,
    lits: &[KeyLit],
) -> Result<SmallVec<Lit, 8>, AllocError>
    requires { All (HasKey frames.now) lits.now }
    ensures { IfOk result (λ v. v.items ≡ map (code_of frames.now) lits.now) }
{
    let mut codes = SmallVec::new(alloc);
    for l in lits {
        codes.push(code(frames, l))?;
    }
    Ok(codes)
}

/// The same, with any literal in place of one whose key has no number.
pub fn known_codes(
    alloc: Global,
    frames: &Frames,
    lits: &[KeyLit],
) -> Result<SmallVec<Lit, 8>, AllocError>
    ensures { IfOk result (λ v. AreCodes frames.now lits.now v.items) }
{
    let mut codes = SmallVec::new(alloc);
    for l in lits {
        codes.push(known_code(frames, l))?;
    }
    Ok(codes)
}

/// The literal of the number of this literal's key, or any literal where the key has no number.
pub fn known_code(frames: &Frames, l: &KeyLit) -> Lit
    ensures { IsCode frames.now l.now result }
{
    match frames.number(&l.key) {
        None => Lit::default(),
        Some(number) => {
            prove!(number <= frames.vars());
            Lit::new(number, l.positive)
        }
    }
}

/// The literal, or where not positive its complement.
pub fn signed(lit: Lit, positive: bool) -> Lit
    ensures { result ≡ (if positive then lit else negated lit) }
{
    if positive { lit } else { lit.negated() }
}

/// The literal of the number of this literal's key.
pub fn code(frames: &Frames, l: &KeyLit) -> Lit
    requires { HasKey frames.now l.now }
    ensures { result ≡ code_of frames.now l.now }
{
    let number = frames.number(&l.key).unwrap();
    prove!(number <= frames.vars());
    Lit::new(number, l.positive)
}
