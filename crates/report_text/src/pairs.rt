//! The lines of the selected pairs.
ghost use Rattle.std.specs.Prelude.{◌≡◌, ◌++◌, IfOk, OnOk, string_bytes};
ghost use Rattle.report_text.specs.Words.{ends_text, found_text, pair_text};
ghost use Rattle.report_text.specs.Reports.{pair_lines, all_pairs};
ghost use Rattle.report_text.specs.Rows.{HasRows};

use crate::blocks::add_block;
use crate::lines::ReportLines;
use crate::outcomes::{verdict_word, why_text};
use crate::rows::{PairRow, row_at};
use crate::words::claim_text;
use selected_types::{PairLine, Selected};
use std::alloc::{AllocError, Global};
use verdict_types::{Cause, Verdict};

/// From where to where a pair leads, by the names of its start and its end.
pub fn ends_text(alloc: Global, pair: &PairLine) -> Result<String, AllocError>
    ensures { IfOk result (λ text. string_bytes text ≡ ends_text pair.now) }
{
    let start = &pair.start;
    let end = &pair.end;
    format!(in alloc; "{start} -> {end}")
}

/// What is found out about a pair, in a run whose greatest depth is `limit`.
pub fn found_text(alloc: Global, limit: usize, verdict: &Verdict) -> Result<String, AllocError>
    ensures { IfOk result (λ text. string_bytes text ≡ found_text limit verdict.now) }
{
    let word = verdict_word(verdict);
    let why = why_text(alloc, limit, verdict)?;
    format!(in alloc; "{word} {why}")
}

fn pair_text(alloc: Global, limit: usize, row: &PairRow<'_>) -> Result<String, AllocError>
    ensures { IfOk result (λ text. string_bytes text ≡ pair_text limit row.now.number row.now.pair.now row.now.claim.now row.now.verdict.now) }
{
    let number = row.number;
    let command = row.pair.command;
    let claim = claim_text(alloc, row.claim)?;
    let ends = ends_text(alloc, row.pair)?;
    let found = found_text(alloc, limit, row.verdict)?;
    format!(in alloc; "pair {number} command {command} {claim} {ends} {found}")
}

fn add_pair(
    alloc: Global,
    limit: usize,
    row: &PairRow<'_>,
    report: &mut ReportLines,
) -> Result<(), AllocError>
    ensures { OnOk result (report.new ≡ report.old ++ pair_lines limit row.now.number row.now.pair.now row.now.claim.now row.now.verdict.now) }
{
    report.add(pair_text(alloc, limit, row)?)?;
    match row.verdict {
        Verdict::Refuted { stimulus, .. } | Verdict::Undecided(Cause::Free { stimulus, .. }) => {
            add_block(alloc, row.number, stimulus, report)
        }
        Verdict::Justified(_) | Verdict::Undecided(_) => Ok(()),
    }
}

/// Adds the lines of all pairs, in a run whose greatest depth is `limit`.
pub(crate) fn add_pairs(
    alloc: Global,
    limit: usize,
    selected: &Selected,
    verdicts: &[Verdict],
    report: &mut ReportLines,
) -> Result<(), AllocError>
    requires { HasRows selected.now verdicts.now }
    ensures { OnOk result (report.new ≡ report.old ++ all_pairs limit selected.now verdicts.now) }
{
    for k in 0..verdicts.len() {
        add_pair(alloc, limit, &row_at(selected, verdicts, k), report)?;
    }
    Ok(())
}
