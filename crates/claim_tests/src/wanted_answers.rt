//! Answers of a check, and what is wanted of them.
ghost use Rattle.std.specs.Prelude.{All};
ghost use Rattle.net_model.specs.Netlist.{IsSound};
ghost use Rattle.net_model.specs.Fits.{Fits};

use cert_call::check_cert;
use cert_values::CertFault;
use net_model::{Claim, Design};
use sdcv_base::Seq;
use std::alloc::Global;

/// Whether the answer is this list, or this fault.
pub fn is_wanted(found: &Result<Seq<u64>, CertFault>, want: &Result<&[u64], CertFault>) -> bool {
    match (found, want) {
        (Ok(numbers), Ok(list)) => numbers.as_slice() == *list,
        (Err(fault), Err(other)) => *fault == *other,
        _ => false,
    }
}

/// Whether the answer to the text is this list, or this fault.
pub fn has_answer(
    alloc: Global,
    design: &Design,
    claims: &Seq<Claim>,
    text: &[u8],
    want: &Result<&[u64], CertFault>,
) -> bool
    requires sound { IsSound design.now }
    requires fit { All (Fits design.now) claims.now }
{
    is_wanted(&check_cert(alloc, design, claims.as_slice(), text), want)
}

/// Each front of the text ends early.
pub fn ends_early(alloc: Global, design: &Design, claims: &Seq<Claim>, text: &[u8]) -> bool
    requires sound { IsSound design.now }
    requires fit { All (Fits design.now) claims.now }
{
    for k in 0..text.len() {
        let fault = Err(CertFault::Form(k));
        if !has_answer(alloc, design, claims, &text[..k], &fault) {
            return false;
        }
    }
    true
}
