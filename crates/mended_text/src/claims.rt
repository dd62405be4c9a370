//! Whether claims are those at the places of some pairs.
ghost use Rattle.std.specs.Prelude.{◌≡◌, ◌↔◌, IsTrue, ◌++◌, List, MatchOption, slice_get};
ghost use Rattle.mended_text.specs.Claims.{claim_list, claims_at, AreAlike, BeginsOtherwise};

use mend_groups::Row;
use net_model::{Claim, PinRef, PinSet};
use sdcv_base::Seq;

fn is_pin(a: PinRef, b: PinRef) -> bool
    ensures { IsTrue result ↔ (a ≡ b) }
{
    a == b
}

fn are_pins(a: &Seq<PinRef>, b: &Seq<PinRef>) -> bool
    ensures { IsTrue result ↔ (a.now ≡ b.now) }
{
    if a.len() != b.len() {
        return false;
    }
    for k in 0..a.len() {
        if !is_pin(a.at(k), b.at(k)) {
            return false;
        }
    }
    true
}

fn are_sets(a: &Seq<PinSet>, b: &Seq<PinSet>) -> bool
    ensures { IsTrue result ↔ (a.now ≡ b.now) }
{
    if a.len() != b.len() {
        return false;
    }
    for k in 0..a.len() {
        if !are_pins(a.item(k).pins(), b.item(k).pins()) {
            return false;
        }
    }
    true
}

// Whether both are judged alike: their kinds, edges, lags and sides are the same.
fn are_alike(a: &Claim, b: &Claim) -> bool
    ensures { IsTrue result ↔ AreAlike a.now b.now }
{
    a.kind == b.kind
        && a.edge == b.edge
        && a.lag == b.lag
        && a.hazard == b.hazard
        && a.early == b.early
}

fn is_claim(a: &Claim, b: &Claim) -> bool
    ensures { IsTrue result ↔ (a.now ≡ b.now) }
{
    are_alike(a, b) && a.start == b.start && a.end == b.end && are_sets(&a.through, &b.through)
}

// What follows the claim at a place, if it stands first. Without a claim at the place all follows.
fn rest_after<'a>(again: &'a [Claim], claims: &Seq<Claim>, place: usize) -> Option<&'a [Claim]>
    ensures { MatchOption result (BeginsOtherwise (claim_list claims.now place) again.now)
        (λ rest. again.now ≡ claim_list claims.now place ++ rest.now) }
{
    if place >= claims.len() {
        return Some(again);
    }
    match again.split_first() {
        Some((first, rest)) if is_claim(first, claims.item(place)) => Some(rest),
        _ => None,
    }
}

/// Whether these claims are those at the places of the pairs, in the order of the pairs.
pub(crate) fn are_claims_at(again: &[Claim], claims: &Seq<Claim>, rows: &[Row]) -> bool
    ensures { IsTrue result ↔ (again.now ≡ claims_at claims.now rows.now) }
{
    let mut rest = again;
    for row in rows {
        match rest_after(rest, claims, row.place) {
            Some(more) => rest = more,
            None => return false,
        }
    }
    rest.is_empty()
}
