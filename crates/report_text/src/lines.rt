//! The lines of a report, in order.
ghost use Rattle.std.specs.Prelude.{◌≡◌, [], ◌∷◌, ◌++◌, OnOk, string_bytes};
ghost use Rattle.witness_replay.specs.StimulusTexts.{line_of};
ghost use Rattle.report_text.specs.Notices.{notice_lines};
ghost use Rattle.report_text.specs.Reports.{bytes_of_lines};

use crate::notices::add_notices;
use selected_types::Notices;
use std::alloc::{AllocError, Global};
use std::marker::Model;

/// Lines, each with the newline that ends it.
#[derive(Drop)]
pub(crate) struct ReportLines {
    lines: Vec<Vec<u8>>,
}

impl Model for ReportLines {
    ghost use Rattle.std.specs.Prelude.{ℕ, List};
    ghost use Rattle.report_text.specs.Reports.{bytes_of_lines};

    ghost Value = { List (List ℕ) };

    ghost view = { λ report. bytes_of_lines report.lines.items };
}

impl ReportLines {
    pub fn new(alloc: Global) -> ReportLines
        ensures { result ≡ [] }
    {
        ReportLines {
            lines: Vec::new(alloc),
        }
    }

    /// Adds the line of a text.
    pub fn add(&mut self, text: String) -> Result<(), AllocError>
        ensures { OnOk result (self.new ≡ self.old ++ line_of (string_bytes text) ∷ []) }
    {
        let mut line = text.into_bytes();
        line.push(b'\n')?;
        self.lines.push(line)?;
        Ok(())
    }

    /// Adds the lines of what is told of a netlist, and of a script beside its exceptions.
    pub fn add_notices(&mut self, alloc: Global, notices: &Notices) -> Result<(), AllocError>
        ensures { OnOk result (self.new ≡ self.old ++ notice_lines notices.now) }
    {
        add_notices(alloc, notices, &mut self.lines)
    }

    /// The lines, which are not copied.
    pub fn into_vec(self) -> Vec<Vec<u8>>
        ensures { bytes_of_lines result.items ≡ self }
    {
        let ReportLines { lines } = self;
        lines
    }
}
