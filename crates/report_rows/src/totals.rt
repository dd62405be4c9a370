//! How many pairs a report has of each verdict.
ghost use Rattle.std.specs.Prelude.{◌≡◌};
ghost use Rattle.report_rows.specs.Totals as spec;

use crate::reports::{PairRow, Report, Word};

/// How many pairs there are, and how many of them are justified, refuted and undecided.
#[derive(Clone, Copy, PartialEq, Eq)]
pub struct Tally {
    pub pairs: u64,
    pub justified: u64,
    pub refuted: u64,
    pub undecided: u64,
}

/// The rows that a text has, and the totals that it gives.
#[derive(Drop)]
pub struct Totalled {
    pub report: Report,
    pub total: Tally,
}

/// Counts the verdicts.
#[tactic(auto, using(std::proofs::lemmas::List::Sums::count_by_more_no, std::proofs::lemmas::List::Sums::count_by_more_yes))]
pub(crate) fn tally_of(rows: &[PairRow]) -> Tally
    ensures { result ≡ spec.tally_of rows.now }
{
    let mut justified = 0;
    let mut refuted = 0;
    let mut undecided = 0;
    for row in rows {
        match row.verdict {
            Word::Justified => justified += 1,
            Word::Refuted => refuted += 1,
            Word::Undecided => undecided += 1,
        }
    }
    Tally {
        pairs: rows.len() as u64,
        justified,
        refuted,
        undecided,
    }
}
