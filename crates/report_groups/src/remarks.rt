//! What is to be told of the lines of an accepted list.
ghost use Rattle.std.specs.Prelude.{◌≡◌, ◌++◌, IfOk, OnOk, flat_map, string_bytes};
ghost use Rattle.report_groups.specs.Remarks as spec;

use crate::findings::{Finding, findings_of};
use accepted_lists::{
    AcceptedList, Day, Entry, ListLine, Remark, is_over, list_on, pair_remark, said_in,
};
use report_rows::Report;
use sdcv_base::{Name, Seq};
use std::alloc::{AllocError, Global};

/// What is to be told of a line, by its number.
#[derive(Clone, Copy)]
pub struct LineRemark {
    pub line: u64,
    pub remark: Remark,
}

// Adds the words by which a note may be accepted.
fn add_words(alloc: Global, finding: &Finding, out: &mut Seq<Name>) -> Result<(), AllocError>
    ensures { OnOk result (out.new ≡ out.old ++ spec.note_words finding.now) }
{
    if let Finding::Note(text) = finding {
        let said = said_in(alloc, text.as_bytes())?;
        out.push(text.copy(alloc)?)?;
        out.push(said)?;
    }
    Ok(())
}

// The words by which the notes of a report may be accepted.
fn note_words(alloc: Global, findings: &[Finding]) -> Result<Seq<Name>, AllocError>
    ensures { IfOk result (λ all. all ≡ flat_map spec.note_words findings.now) }
{
    let mut out = Seq::new(alloc);
    for finding in findings {
        add_words(alloc, finding, &mut out)?;
    }
    Ok(out)
}

// Whether some note has these words.
fn is_said(words: &[Name], note: &Name) -> bool
    ensures { result ≡ spec.is_said words.now note.now }
{
    words.iter().any(|word| *word == *note)
}

fn note_remark(words: &[Name], note: &Name) -> Option<Remark>
    ensures { result ≡ spec.note_remark words.now note.now }
{
    if is_said(words, note) {
        None
    } else {
        Some(Remark::FitsNothing)
    }
}

fn entry_remark(
    list: &AcceptedList,
    report: &Report,
    words: &[Name],
    entry: &Entry,
) -> Option<Remark>
    ensures { result ≡ spec.entry_remark list.now report.now words.now entry.now }
{
    match entry {
        Entry::OnPairs(entry) => pair_remark(report, list, entry),
        Entry::OnNote(note) => note_remark(words, note),
    }
}

// What is to be told of an entry, where its last day is not over, and else that it is.
fn line_remark(today: Option<Day>, found: Option<Remark>, until: Option<Day>) -> Option<Remark>
    ensures { result ≡ spec.line_remark today found until }
{
    match until {
        Some(last) if is_over(today, until) => Some(Remark::Over(last)),
        _ => found,
    }
}

// Adds what is to be told of a line.
fn add_remark(
    number: u64,
    found: Option<Remark>,
    out: &mut Seq<LineRemark>,
) -> Result<(), AllocError>
    ensures { OnOk result (out.new ≡ out.old ++ spec.numbered number found) }
{
    if let Some(remark) = found {
        out.push(LineRemark {
            line: number,
            remark,
        })?;
    }
    Ok(())
}

fn remarks_among(
    alloc: Global,
    today: Option<Day>,
    lines: &[ListLine],
    list: &AcceptedList,
    report: &Report,
    words: &[Name],
) -> Result<Seq<LineRemark>, AllocError>
    ensures { IfOk result (λ all. all ≡ flat_map (spec.remarks_on today list.now report.now words.now) lines.now) }
{
    let mut out = Seq::new(alloc);
    for line in lines {
        let found = entry_remark(list, report, words, &line.entry);
        add_remark(line.number, line_remark(today, found, line.until), &mut out)?;
    }
    Ok(out)
}

/// What is to be told of the lines of a list: that the last day of an entry is over, that it fits nothing of the report, or that
/// it fits more pairs than it accepts. None of it stops a build.
pub fn remarks_of(
    alloc: Global,
    today: Option<Day>,
    lines: &[ListLine],
    report: &Report,
) -> Result<Seq<LineRemark>, AllocError>
    ensures { IfOk result (λ all. all ≡ spec.remarks_of today lines.now report.now) }
{
    let list = list_on(alloc, today, lines)?;
    let findings = findings_of(alloc, report)?;
    let words = note_words(alloc, findings.as_slice())?;
    remarks_among(alloc, today, lines, &list, report, words.as_slice())
}

/// The word for so many pairs.
pub fn pairs_word(count: u64) -> &'static str
    ensures { result.now ≡ spec.pairs_word count }
{
    if count == 1 { "pair" } else { "pairs" }
}

fn remark_text(alloc: Global, remark: Remark) -> Result<String, AllocError>
    ensures { IfOk result (λ text. string_bytes text ≡ spec.remark_text remark) }
{
    match remark {
        Remark::Over(last) => {
            let last = last.text(alloc)?;
            format!(in alloc; "until {last} is over")
        }
        Remark::FitsNothing => format!(in alloc; "fits nothing"),
        Remark::Grown(most, pairs) => {
            let word = pairs_word(most);
            format!(in alloc; "accepts {most} {word}, here are {pairs}")
        }
    }
}

/// The remark on a line of the file of this name.
pub fn line_remark_text(
    alloc: Global,
    name: &str,
    remark: &LineRemark,
) -> Result<String, AllocError>
    ensures { IfOk result (λ text. string_bytes text ≡ spec.line_remark_text name.now remark.now) }
{
    let line = remark.line;
    let told = remark_text(alloc, remark.remark)?;
    format!(in alloc; "{name}:{line}: {told}")
}
