//! How a report differs from an older one.
ghost use Rattle.std.specs.Prelude.{◌≡◌, IfOk, IfErr};
ghost use Rattle.report_groups.specs.Differences.{differences_text};
ghost use Rattle.view_commands.specs.Differences as spec;

use crate::reports::{NamedText, report_in};
use crate::stops::Stop;
use report_groups::differences_text;
use report_rows::Report;
use std::alloc::{AllocError, Global};

/// How a report differs from an older one, in lines, and the status of a program that prints them.
#[derive(Drop)]
pub struct Difference {
    pub text: Vec<u8>,
    pub status: u8,
}

// The difference of two reports.
fn told_difference(alloc: Global, old: &Report, new: &Report) -> Result<Difference, AllocError>
    ensures text { IfOk result (λ d. d.text.items ≡ differences_text old.now new.now) }
    ensures status { IfOk result (λ d. d.status ≡ spec.status_of d.text.items) }
{
    let text = differences_text(alloc, old, new)?;
    let status = if text.is_empty() { 0 } else { 1 };
    Ok(Difference { text, status })
}

/// How a report differs from an older one, in lines. The status is 0 where there is no line, and else 1. A fault of the older one
/// comes first.
pub fn diff(alloc: Global, old: &NamedText<'_>, new: &NamedText<'_>) -> Result<Difference, Stop>
    ensures text { IfOk result (λ d. spec.IsDifference old.now.text.now new.now.text.now d.text.items) }
    ensures status { IfOk result (λ d. d.status ≡ spec.status_of d.text.items) }
    ensures err { IfErr result (spec.IsUntold old.now.name.now old.now.text.now new.now.name.now new.now.text.now) }
{
    let olds = report_in(alloc, old.name, old.text)?;
    let news = report_in(alloc, new.name, new.text)?;
    match told_difference(alloc, &olds, &news) {
        Ok(made) => Ok(made),
        Err(_) => Err(Stop::Memory),
    }
}
