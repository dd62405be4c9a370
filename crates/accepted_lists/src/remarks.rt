//! What is to be told of an entry that does not accept what it says.
ghost use Rattle.std.specs.Prelude.{◌≡◌};
ghost use Rattle.accepted_lists.specs.Accepted.{granted};
ghost use Rattle.accepted_lists.specs.Remarks as spec;

use crate::accepted::{fitted, is_of_mode, left_of};
use crate::days::Day;
use crate::lists::AcceptedList;
use crate::pair_entries::PairEntry;
use report_rows::{Head, Report};

/// What is to be told of an entry that does not accept what it says.
#[derive(Clone, Copy)]
pub enum Remark {
    /// Its last day is over.
    Over(Day),
    /// There is no pair, or no note, that it fits.
    FitsNothing,
    /// It accepts nothing: with those like it it may fit so many pairs, and here are so many.
    Grown(u64, u64),
}

// How many pairs of a report an entry fits, where the report is of those that it asks for.
fn fitted_here(report: &Report, entry: &PairEntry) -> u64
    ensures { result ≡ spec.fitted_here report.now entry.now }
{
    if is_of_mode(&report.head, entry) {
        fitted(report.pairs.as_slice(), entry)
    } else {
        0
    }
}

// What is to be told of an entry that fits so many pairs, where these are more than it accepts.
fn grown(head: &Head, entries: &[PairEntry], entry: &PairEntry, pairs: u64) -> Option<Remark>
    ensures { result ≡ spec.grown entry.now.count (granted head.now entries.now entry.now) pairs }
{
    let _count = entry.count?;
    let left = left_of(head, entries, entry, pairs);
    if left == 0 {
        None
    } else {
        Some(Remark::Grown(pairs - left, pairs))
    }
}

/// What is to be told of an entry on pairs that fits none of a report, or more than it accepts.
pub fn pair_remark(report: &Report, list: &AcceptedList, entry: &PairEntry) -> Option<Remark>
    ensures { result ≡ spec.pair_remark report.now list.now.pairs entry.now }
{
    let pairs = fitted_here(report, entry);
    if pairs == 0 {
        return Some(Remark::FitsNothing);
    }
    grown(&report.head, list.pairs.as_slice(), entry, pairs)
}
