//! What a report tells by groups.
ghost use Rattle.std.specs.Prelude.{◌≡◌, ◌++◌, IfOk, OnOk, map};
ghost use Rattle.report_groups.specs.Findings as spec;
ghost use Rattle.report_groups.specs.declared.findings.Finding.TheVariants.{Pairs};

use crate::groups::{Group, groups_of};
use crate::notes::add_notes;
use crate::told_notes::add_told_notes;
use report_rows::Report;
use sdcv_base::{Name, Seq};
use std::alloc::{AllocError, Global};

/// One line of what is told.
#[derive(Drop)]
pub enum Finding {
    /// The script has no exception.
    NoException,
    /// A command is not judged, or an exception is set aside, selects nothing, or has a warning: the line that says it.
    Note(Name),
    Pairs(Group),
}

// Adds the groups.
fn add_groups(groups: Vec<Group>, out: &mut Seq<Finding>) -> Result<(), AllocError>
    ensures { OnOk result (out.new ≡ out.old ++ map Pairs groups.items) }
{
    for group in groups {
        out.push(Finding::Pairs(group))?;
    }
    Ok(())
}

/// What a report tells by groups: the notes on commands that are not judged and those on its exceptions, each in the order of the
/// script, and the groups of its pairs in the order of the first pair of each.
pub fn findings_of(alloc: Global, report: &Report) -> Result<Seq<Finding>, AllocError>
    ensures { IfOk result (λ all. all ≡ spec.findings_of report.now) }
{
    let mut out = Seq::new(alloc);
    add_told_notes(alloc, report.told.as_slice(), &mut out)?;
    add_notes(alloc, report.script.as_slice(), &mut out)?;
    let groups = groups_of(alloc, report.pairs.as_slice())?;
    add_groups(groups.into_vec(), &mut out)?;
    Ok(out)
}
