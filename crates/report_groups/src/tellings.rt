//! What is told, as text, and what of it stops a build.
ghost use Rattle.std.specs.Prelude.{◌≡◌, ◌↔◌, ◌++◌, [], IsTrue, IfOk, OnOk, string_bytes};
ghost use Rattle.witness_replay.specs.StimulusTexts.{line_of};
ghost use Rattle.report_groups.specs.Groups.{group_text};
ghost use Rattle.report_groups.specs.Findings as spec;

use crate::findings::{Finding, findings_of};
use crate::gates::Gate;
use crate::groups::Group;
use crate::keys::{ends_text, found_text};
use report_rows::{Report, Word};
use std::alloc::{AllocError, Global};

fn group_text(alloc: Global, group: &Group) -> Result<String, AllocError>
    ensures { IfOk result (λ text. string_bytes text ≡ group_text group.now) }
{
    let ends = ends_text(alloc, &group.row)?;
    let pairs = group.pairs;
    let found = found_text(alloc, &group.row)?;
    let first = group.row.number;
    format!(in alloc; "{ends} {pairs} {found} first {first}")
}

// Appends the line of a finding.
fn push_line(alloc: Global, out: &mut Vec<u8>, finding: &Finding) -> Result<(), AllocError>
    ensures { OnOk result (out.new.items ≡ out.old.items ++ line_of (spec.finding_text finding.now)) }
{
    match finding {
        Finding::NoException => out.extend_from_slice(b"no exception")?,
        Finding::Note(text) => out.extend_from_slice(text.as_bytes())?,
        Finding::Pairs(group) => {
            out.extend_from_slice(group_text(alloc, group)?.as_bytes())?;
        }
    }
    out.push(b'\n')?;
    Ok(())
}

/// A report by groups: a line for each note on a command that is not judged or on an exception, and one for each group of pairs.
///
/// A group's line has its start and end with each `[digits]` as `[*]`, how many pairs it has, their verdict with its cause,
/// the exception and what it claims, and the number of its first pair.
pub fn groups_text(alloc: Global, report: &Report) -> Result<Vec<u8>, AllocError>
    ensures { IfOk result (λ text. text.items ≡ spec.findings_text (spec.findings_of report.now)) }
{
    let all = findings_of(alloc, report)?;
    let mut out = Vec::new(alloc);
    for finding in all.as_slice() {
        push_line(alloc, &mut out, finding)?;
    }
    Ok(out)
}

// Whether a finding lets a build go on.
fn passes(finding: &Finding) -> bool
    ensures { result ≡ spec.passes finding.now }
{
    match finding {
        Finding::NoException | Finding::Note(_) => false,
        Finding::Pairs(group) => group.row.verdict == Word::Justified,
    }
}

/// The lines of the findings that stop a build.
pub(crate) fn gate_among(alloc: Global, findings: &[Finding]) -> Result<Gate, AllocError>
    ensures text { IfOk result (λ gate. gate.text.items ≡ spec.findings_text (spec.stopping_among findings.now)) }
    ensures passes { IfOk result (λ gate. IsTrue gate.passes ↔ (spec.stopping_among findings.now ≡ [])) }
{
    let mut text = Vec::new(alloc);
    let mut passed = true;
    for finding in findings {
        if !passes(finding) {
            push_line(alloc, &mut text, finding)?;
            passed = false;
        }
    }
    Ok(Gate {
        text,
        passes: passed,
    })
}

/// The lines of `groups_text` that stop a build: all but those of justified groups. A report with no exception stops it too.
pub fn gate(alloc: Global, report: &Report) -> Result<Gate, AllocError>
    ensures text { IfOk result (λ gate. gate.text.items ≡ spec.findings_text (spec.stopping report.now)) }
    ensures passes { IfOk result (λ gate. IsTrue gate.passes ↔ (spec.stopping report.now ≡ [])) }
{
    let all = findings_of(alloc, report)?;
    gate_among(alloc, all.as_slice())
}
