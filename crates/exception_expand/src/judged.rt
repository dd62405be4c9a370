//! Claims that need a verdict.
ghost use Rattle.std.specs.Prelude.{◌≡◌, nat_lt, count_by};
ghost use Rattle.exception_expand.specs.Pairs as spec;

use crate::limits::MOST_JUDGED;
use net_model::{Claim, Design, Fixed, Start};
use sdcv_base::Seq;

/// Whether more of the claims need a verdict than one script may have.
pub(crate) fn has_many_judged(design: &Design, claims: &Seq<Claim>) -> bool
    ensures { result ≡ nat_lt 10000 (count_by (spec.is_judged design.now) claims.now) }
{
    judged(design, claims) > MOST_JUDGED
}

fn judged(design: &Design, claims: &Seq<Claim>) -> usize
    ensures { result ≡ count_by (spec.is_judged design.now) claims.now }
{
    let mut count = 0;
    for k in 0..claims.len() {
        if is_judged(design, claims.item(k)) {
            count += 1;
        }
    }
    count
}

// It judges some capture, and its start may toggle.
fn is_judged(design: &Design, claim: &Claim) -> bool
    ensures { result ≡ spec.is_judged design.now claim.now }
{
    claim.judged_count() > 0 && is_free(design, &claim.start)
}

fn is_free(design: &Design, start: &Start) -> bool
    ensures { result ≡ spec.is_free design.now start.now }
{
    match start {
        Start::Reg(_) => true,
        Start::Input(input) => {
            !(is_set(&design.fixed, *input) || is_set(&design.resets, *input))
        }
    }
}

fn is_set(settings: &Seq<Fixed>, input: usize) -> bool
    ensures { result ≡ spec.is_set input settings.now }
{
    settings
        .as_slice()
        .iter()
        .any(|setting| setting.input == input)
}
