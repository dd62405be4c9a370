//! What stops a build beside what is accepted.
ghost use Rattle.std.specs.Prelude.{◌≡◌, ◌↔◌, [], IsTrue, IfOk};
ghost use Rattle.report_groups.specs.Findings as spec;

use crate::findings::{Finding, findings_of};
use crate::gates::Gate;
use crate::tellings::gate_among;
use accepted_lists::{AcceptedList, accepts_note, open_of};
use report_rows::Report;
use sdcv_base::Seq;
use std::alloc::{AllocError, Global};

// Whether a finding is an accepted note.
fn is_accepted(alloc: Global, list: &AcceptedList, finding: &Finding) -> Result<bool, AllocError>
    ensures { IfOk result (λ accepted. accepted ≡ spec.is_accepted list.now finding.now) }
{
    match finding {
        Finding::Note(text) => accepts_note(alloc, list, text),
        Finding::NoException | Finding::Pairs(_) => Ok(false),
    }
}

// The findings without the accepted notes.
fn unaccepted(
    alloc: Global,
    list: &AcceptedList,
    findings: Vec<Finding>,
) -> Result<Seq<Finding>, AllocError>
    ensures { IfOk result (λ all. all ≡ spec.unaccepted list.now findings.items) }
{
    let mut out = Seq::new(alloc);
    for finding in findings {
        let accepted = is_accepted(alloc, list, &finding)?;
        if !accepted {
            out.push(finding)?;
        }
    }
    Ok(out)
}

/// What `gate` tells of the report without the pairs that the list accepts, but for the notes that it accepts.
pub fn gate_with(alloc: Global, list: &AcceptedList, report: Report) -> Result<Gate, AllocError>
    ensures text { IfOk result (λ gate. gate.text.items ≡ spec.findings_text (spec.stopping_with list.now report)) }
    ensures passes { IfOk result (λ gate. IsTrue gate.passes ↔ (spec.stopping_with list.now report ≡ [])) }
{
    let open = open_of(alloc, list, report)?;
    let all = findings_of(alloc, &open)?;
    let left = unaccepted(alloc, list, all.into_vec())?;
    gate_among(alloc, left.as_slice())
}
