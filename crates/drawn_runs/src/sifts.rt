//! Clauses that hold in sixty-four cycles at once.
ghost use Rattle.std.specs.Prelude.{◌≡◌, ◌<◌, ◌≤◌, ℕ, filter};
ghost use Rattle.net_model.specs.Queries.{state_value, clause_holds};
ghost use Rattle.net_model.specs.LaneBits.{lane};
ghost use Rattle.drawn_runs.specs.Sifts.{bits_cycle, holds64};

use crate::lane_steps::either;
use net_model::{InvClause, Lanes, StateLit, Value};
use sdcv_base::Seq;

/// In each lane whether a literal is true. A bit that the lanes do not have counts as 0.
fn lit64(lit: StateLit, bits: &Seq<Lanes>) -> Lanes
    ensures { (i : ℕ) → i < 64 → lane result i ≡ state_value (bits_cycle i bits.now) lit }
{
    let blank = Lanes::of_bit(false);
    let word = bits.as_slice().get(lit.reg).copied().unwrap_or(blank);
    if lit.value { word } else { word.complement() }
}

/// In each lane whether a clause holds.
pub(crate) fn clause64(clause: &InvClause, bits: &Seq<Lanes>) -> Lanes
    ensures { (i : ℕ) → i < 64 → lane result i ≡ clause_holds (bits_cycle i bits.now) clause.now }
{
    let mut word = Lanes::of_bit(false);
    for lit in clause.lits.as_slice() {
        word = either(word, lit64(*lit, bits));
    }
    word
}

/// Whether a clause holds in each lane.
fn holds64(clause: &InvClause, bits: &Seq<Lanes>) -> bool
    ensures { result ≡ holds64 bits.now clause.now }
{
    let word = clause64(clause, bits);
    word.0 == u64::MAX
}

/// The clauses that hold in each lane, in their order.
fn sift(clauses: Seq<InvClause>, bits: &Seq<Lanes>) -> Seq<InvClause>
    ensures { result ≡ filter (holds64 bits.now) clauses }
{
    let mut left = clauses.into_vec();
    left.retain(|clause| holds64(clause, bits));
    Seq::from_vec(left)
}

/// From the first live cycle on the clauses that hold in each lane of cycle `t`; before it all clauses.
pub(crate) fn sift_live(
    clauses: Seq<InvClause>,
    t: usize,
    first_live: usize,
    bits: &Seq<Lanes>,
) -> Seq<InvClause>
    ensures live { first_live ≤ t → result ≡ filter (holds64 bits.now) clauses }
    ensures before { t < first_live → result ≡ clauses }
{
    if t >= first_live {
        sift(clauses, bits)
    } else {
        clauses
    }
}
