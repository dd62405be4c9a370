//! The pairs of a selection, each with its claim and its verdict.
ghost use Rattle.std.specs.Prelude.{◌≡◌, ◌+◌, ◌<◌, length, slice_get, Some};
ghost use Rattle.report_text.specs.Rows.{HasRows};

use net_model::Claim;
use selected_types::{PairLine, Selected};
use verdict_types::Verdict;

/// A selected pair, its number from 1, what is claimed of it, and what is found out about that.
#[derive(Clone, Copy)]
pub struct PairRow<'a> {
    pub number: u64,
    pub pair: &'a PairLine,
    pub claim: &'a Claim,
    pub verdict: &'a Verdict,
}

/// The pair at a place.
pub fn row_at<'a>(selected: &'a Selected, verdicts: &'a [Verdict], place: usize) -> PairRow<'a>
    requires rows { HasRows selected.now verdicts.now }
    requires place { place < length verdicts.now }
    ensures number { result.number ≡ place + 1 }
    ensures pair { slice_get selected.now.pairs place ≡ Some result.pair.now }
    ensures claim { slice_get selected.now.claims place ≡ Some result.claim.now }
    ensures verdict { slice_get verdicts.now place ≡ Some result.verdict.now }
{
    PairRow {
        number: place as u64 + 1,
        pair: selected.pairs.item(place),
        claim: selected.claims.item(place),
        verdict: &verdicts[place],
    }
}
