//! Whether a report has as many pairs as it says.
ghost use Rattle.std.specs.Prelude.{◌≡◌, All, IfOk, IfErr, OnOk, MatchOption};
ghost use Rattle.report_rows.specs.Totals.{HasItsPairs, IsCounted, IsCountCause, IsMiscount, IsPairsCause};
ghost use Rattle.report_rows.specs.Totals as spec;

use crate::faults::ReportFault;
use crate::reports::{PairRow, Report, Said, ScriptRow};
use crate::totals::{Totalled, tally_of};

// How many pairs are of the exception of this number.
fn pairs_of(rows: &[PairRow], command: u64) -> u64
    ensures { result ≡ spec.pairs_of rows.now command }
{
    rows.iter().filter(|row| row.command == command).count() as u64
}

// Why an exception says another number of pairs than are its own, where it does.
fn miscount(rows: &[PairRow], row: &ScriptRow) -> Option<ReportFault>
    ensures { MatchOption result (HasItsPairs rows.now row.now) (IsMiscount rows.now row.now) }
{
    match &row.said {
        Said::Does(_, says) => {
            let pairs = pairs_of(rows, row.command);
            if *says == pairs {
                None
            } else {
                Some(ReportFault::Pairs(row.command, pairs, *says))
            }
        }
        Said::Warns(_) => None,
    }
}

// Each exception says how many pairs are its own.
fn check_pairs(report: &Report) -> Result<(), ReportFault>
    ensures ok { OnOk result (All (HasItsPairs report.now.pairs) report.now.script) }
    ensures err { IfErr result (IsPairsCause report.now) }
{
    for row in report.script.as_slice() {
        if let Some(fault) = miscount(report.pairs.as_slice(), row) {
            return Err(fault);
        }
    }
    Ok(())
}

/// The report, where it has as many pairs as it says.
pub(crate) fn counted(found: Totalled) -> Result<Report, ReportFault>
    ensures ok { IfOk result (λ report. report ≡ found.report) }
    ensures counted { IfOk result (λ report. IsCounted report found.total) }
    ensures err { IfErr result (IsCountCause found.report found.total) }
{
    let Totalled { report, total } = found;
    check_pairs(&report)?;
    if total == tally_of(report.pairs.as_slice()) {
        Ok(report)
    } else {
        Err(ReportFault::Total)
    }
}
