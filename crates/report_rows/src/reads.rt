//! A report read back.
ghost use Rattle.std.specs.Prelude.{◌≡◌, IfOk, IfErr};
ghost use Rattle.report_rows.specs.Reads.{is_json, IsReport, IsReportCause, IsUnsaid, Says};

use crate::counts::counted;
use crate::faults::ReportFault;
use crate::json_reports::read_json;
use crate::line_reports::read_lines;
use crate::reports::Report;
use crate::totals::Totalled;
use std::alloc::Global;

/// Whether a text is taken as JSON.
pub(crate) fn is_json(text: &[u8]) -> bool
    ensures { result ≡ is_json text.now }
{
    match text.first() {
        Some(byte) => *byte == b'{',
        None => false,
    }
}

// What a text says: the rows of a report, and the totals that it gives.
fn read_text(alloc: Global, text: &[u8]) -> Result<Totalled, ReportFault>
    ensures ok { IfOk result (Says text.now) }
    ensures err { IfErr result (IsUnsaid text.now) }
{
    if is_json(text) {
        read_json(alloc, text)
    } else {
        read_lines(alloc, text)
    }
}

/// Reads back a report that was printed by lines, or as JSON (RFC 8259).
///
/// By lines: the options, what is told beside the exceptions, the exceptions and their warnings, the pairs with their stimuli,
/// and the totals, each line ended by a newline. `Line` is the first line that is none of a report there: also one with a byte outside 32 to 126, as the
/// carriage return of a text with CRLF; a pair that has not the next number; a text after the totals. `Ends` where the text
/// ends before its totals do.
///
/// As JSON it is an object in which further keys are passed over; `Json` where it is none. Keys of what is not judged stand
/// exactly where the options ask for them.
///
/// In both an exception that says another number of pairs than have its number is refused (`Pairs`, the first one), and then
/// totals that are not those of the pairs (`Total`).
pub fn read_report(alloc: Global, text: &[u8]) -> Result<Report, ReportFault>
    ensures ok { IfOk result (IsReport text.now) }
    ensures err { IfErr result (IsReportCause text.now) }
{
    counted(read_text(alloc, text)?)
}
