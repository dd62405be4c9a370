//! Which pairs of a report a list accepts.
ghost use Rattle.std.specs.Prelude.{◌≡◌, ◌-◌, ◌==◌, ◌++◌, ◌∷◌, [], IfOk, OnOk, filter, not};
ghost use Rattle.accepted_lists.specs.Accepted as spec;

use crate::lists::AcceptedList;
use crate::pair_entries::PairEntry;
use glob::matches;
use report_rows::{Head, PairRow, Report, Word};
use sdcv_base::Seq;
use std::alloc::{AllocError, Global};

fn is_same_verdict(wanted: Word, verdict: Word) -> bool
    ensures { result ≡ spec.is_same_verdict wanted verdict }
{
    match wanted {
        Word::Justified => verdict == Word::Justified,
        Word::Refuted => verdict == Word::Refuted,
        Word::Undecided => verdict == Word::Undecided,
    }
}

// Whether an entry fits a pair.
fn fits(entry: &PairEntry, row: &PairRow) -> bool
    ensures { result ≡ spec.fits entry.now row.now }
{
    matches(entry.start.as_bytes(), row.start.as_bytes(), false)
        && matches(entry.end.as_bytes(), row.end.as_bytes(), false)
        && entry.kind == row.kind
        && is_same_verdict(entry.verdict, row.verdict)
}

fn is_lag(wanted: Option<u64>, lag: u64) -> bool
    ensures { result ≡ spec.is_lag wanted lag }
{
    match wanted {
        None => true,
        Some(wanted) => wanted == lag,
    }
}

/// Whether the report was made with the hazards and the lag that the entry asks for.
pub(crate) fn is_of_mode(head: &Head, entry: &PairEntry) -> bool
    ensures { result ≡ spec.is_of_mode head.now entry.now }
{
    (!entry.hazard || head.hazard) && is_lag(entry.lag, head.lag)
}

// Whether two entries have the same patterns, kind and verdict.
fn is_alike(entry: &PairEntry, other: &PairEntry) -> bool
    ensures { result ≡ spec.is_alike entry.now other.now }
{
    entry.start == other.start
        && entry.end == other.end
        && entry.kind == other.kind
        && is_same_verdict(entry.verdict, other.verdict)
}

fn count_or_0(count: Option<u64>) -> u64
    ensures { result ≡ spec.count_or_0 count }
{
    match count {
        None => 0,
        Some(count) => count,
    }
}

// What an entry adds to the count of one like it.
fn added(head: &Head, entry: &PairEntry, other: &PairEntry) -> u64
    ensures { result ≡ spec.added head.now entry.now other.now }
{
    if is_alike(entry, other) && is_of_mode(head, other) {
        count_or_0(other.count)
    } else {
        0
    }
}

/// How many pairs are left of so many, without those that the entries like this one may fit.
pub(crate) fn left_of(head: &Head, entries: &[PairEntry], entry: &PairEntry, pairs: u64) -> u64
    ensures { result ≡ pairs - spec.granted head.now entries.now entry.now }
{
    let mut left = pairs;
    for other in entries {
        left = left.saturating_sub(added(head, entry, other));
    }
    left
}

/// How many pairs an entry fits.
pub(crate) fn fitted(rows: &[PairRow], entry: &PairEntry) -> u64
    ensures { result ≡ spec.fitted rows.now entry.now }
{
    rows.iter().filter(|row| fits(entry, row)).count() as u64
}

// Whether an entry with a count fits no more pairs.
fn is_within(report: &Report, entries: &[PairEntry], entry: &PairEntry) -> bool
    ensures { result ≡ spec.is_entry_within report.now entries.now entry.now }
{
    match entry.count {
        None => true,
        Some(_) => {
            let pairs = fitted(report.pairs.as_slice(), entry);
            left_of(&report.head, entries, entry, pairs) == 0
        }
    }
}

// Whether an entry accepts the pairs that it fits.
fn is_live(report: &Report, entries: &[PairEntry], entry: &PairEntry) -> bool
    ensures { result ≡ spec.is_live report.now entries.now entry.now }
{
    is_of_mode(&report.head, entry) && is_within(report, entries, entry)
}

/// An equal entry.
pub(crate) fn copy_entry(alloc: Global, entry: &PairEntry) -> Result<PairEntry, AllocError>
    ensures { IfOk result (λ e. e ≡ entry.now) }
{
    Ok(PairEntry {
        start: entry.start.copy(alloc)?,
        end: entry.end.copy(alloc)?,
        count: entry.count,
        hazard: entry.hazard,
        lag: entry.lag,
        kind: entry.kind.copy(alloc)?,
        verdict: entry.verdict,
    })
}

// Adds an entry, where it accepts the pairs that it fits.
fn add_live(
    alloc: Global,
    report: &Report,
    entries: &[PairEntry],
    entry: &PairEntry,
    out: &mut Vec<PairEntry>,
) -> Result<(), AllocError>
    ensures { OnOk result (out.new.items ≡ out.old.items ++ filter (spec.is_live report.now entries.now) (entry.now ∷ [])) }
{
    if is_live(report, entries, entry) {
        out.push(copy_entry(alloc, entry)?)?;
    }
    Ok(())
}

fn live_entries(
    alloc: Global,
    report: &Report,
    entries: &[PairEntry],
) -> Result<Vec<PairEntry>, AllocError>
    ensures { IfOk result (λ all. all.items ≡ spec.live_entries report.now entries.now) }
{
    let mut live = Vec::new(alloc);
    for entry in entries {
        add_live(alloc, report, entries, entry, &mut live)?;
    }
    Ok(live)
}

// Whether one of the entries fits a pair.
fn is_fitted(entries: &[PairEntry], row: &PairRow) -> bool
    ensures { result ≡ spec.is_fitted entries.now row.now }
{
    entries.iter().any(|entry| fits(entry, row))
}

// The pairs that none of the entries fits.
fn unfitted(
    alloc: Global,
    entries: &[PairEntry],
    rows: Vec<PairRow>,
) -> Result<Seq<PairRow>, AllocError>
    ensures { IfOk result (λ all. all ≡ filter (λ row. not (spec.is_fitted entries.now row)) rows.items) }
{
    let mut out = Seq::new(alloc);
    for row in rows {
        if !is_fitted(entries, &row) {
            out.push(row)?;
        }
    }
    Ok(out)
}

/// The report without the pairs that the list accepts.
pub fn open_of(alloc: Global, list: &AcceptedList, report: Report) -> Result<Report, AllocError>
    ensures { IfOk result (λ all. all ≡ spec.open_of list.now report) }
{
    let live = live_entries(alloc, &report, list.pairs.as_slice())?;
    let Report {
        head,
        told,
        script,
        pairs,
    } = report;
    let pairs = unfitted(alloc, &live, pairs.into_vec())?;
    Ok(Report {
        head,
        told,
        script,
        pairs,
    })
}
