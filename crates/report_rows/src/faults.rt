//! Why a text is no report.
use std::alloc::{AllocError, AllocFailed};
use thiserror::Error;

/// Why a text is no report. Lines count from 1.
#[derive(Clone, Copy, Debug, Drop, Error, PartialEq, Eq)]
pub enum ReportFault {
    /// That line is none of a report there.
    #[error("line {0} is no line of a report")]
    Line(u64),
    /// The text ends before the line of the totals does.
    #[error("it ends before its total")]
    Ends,
    /// It begins with `{` and is no JSON (RFC 8259) of a report.
    #[error("it is no JSON of a report")]
    Json,
    /// The exception of this number has so many pairs, and says another number.
    #[error("command {0} has {1} pairs, it says {2}")]
    Pairs(u64, u64, u64),
    /// The totals are not those of the pairs.
    #[error("its total is not that of its pairs")]
    Total,
    #[error("out of memory")]
    Memory,
}

impl From<AllocError> for ReportFault {
    ghost use Rattle.std.specs.Prelude.{◌≡◌};
    ghost use Rattle.report_rows.specs.declared.faults.ReportFault.TheVariants.{Memory};

    ghost from_gives = { λ _ e. e ≡ Memory };

    fn from(_: AllocError) -> ReportFault {
        ReportFault::Memory
    }
}

impl<T: Drop> From<AllocFailed<T>> for ReportFault {
    ghost use Rattle.std.specs.Prelude.{◌≡◌};
    ghost use Rattle.report_rows.specs.declared.faults.ReportFault.TheVariants.{Memory};

    ghost from_gives = { λ _ e. e ≡ Memory };

    fn from(_: AllocFailed<T>) -> ReportFault {
        ReportFault::Memory
    }
}
