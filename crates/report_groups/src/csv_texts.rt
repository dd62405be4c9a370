//! The groups of a report as comma-separated values.
ghost use Rattle.std.specs.Prelude.{◌≡◌, ◌++◌, IfOk, OnOk, map, string_bytes};
ghost use Rattle.sdcv_base.specs.Shown.{shown};
ghost use Rattle.report_groups.specs.Groups.{groups_of};
ghost use Rattle.report_groups.specs.Csv as spec;

use crate::groups::{Group, groups_of};
use crate::keys::verdict_text;
use csv::{Error, WriterBuilder};
use report_rows::Report;
use sdcv_base::Name;
use std::alloc::{AllocError, Global};

// A record of these fields.
fn record_text(alloc: Global, fields: &[&[u8]]) -> Result<Vec<u8>, Error>
    ensures { IfOk result (λ text. text.items ≡ spec.record_text (map (λ f. f.now) fields.now)) }
{
    let mut writer = WriterBuilder::new().from_writer(Vec::new(alloc));
    writer.write_fields(fields)?;
    match writer.into_inner() {
        Ok(text) => Ok(text),
        Err(e) => Err(e.into_error()),
    }
}

// Appends a record of these fields.
fn push_record(alloc: Global, out: &mut Vec<u8>, fields: &[&[u8]]) -> Result<(), AllocError>
    ensures { OnOk result (out.new.items ≡ out.old.items ++ spec.record_text (map (λ f. f.now) fields.now)) }
{
    match record_text(alloc, fields) {
        Ok(text) => out.extend_from_slice(&text),
        Err(_) => Err(AllocError),
    }
}

// Appends the record of the titles.
fn push_titles(alloc: Global, out: &mut Vec<u8>) -> Result<(), AllocError>
    ensures { OnOk result (out.new.items ≡ out.old.items ++ spec.record_text spec.titles) }
{
    let titles: [&[u8]; 8] = [
        b"command", b"kind", b"start", b"end", b"pairs", b"verdict", b"why", b"first",
    ];
    push_record(alloc, out, &titles)
}

// A name as it is shown in a line.
fn shown(alloc: Global, name: &Name) -> Result<String, AllocError>
    ensures { IfOk result (λ text. string_bytes text ≡ shown name.now) }
{
    format!(in alloc; "{name}")
}

// Whether a spreadsheet may run a field that begins with this byte.
fn is_mark(byte: u8) -> bool
    ensures { result ≡ spec.is_mark byte }
{
    byte == b'=' || byte == b'+' || byte == b'-' || byte == b'@' || byte == b'\t'
}

fn may_run(text: &[u8]) -> bool
    ensures { result ≡ spec.may_run text.now }
{
    match text.first() {
        Some(byte) => is_mark(*byte),
        None => false,
    }
}

// A text with a `'` in front where a spreadsheet may run it.
fn still_text(alloc: Global, text: String) -> Result<String, AllocError>
    ensures { IfOk result (λ still. string_bytes still ≡ spec.still_text (string_bytes text)) }
{
    if may_run(text.as_bytes()) {
        format!(in alloc; "'{text}")
    } else {
        Ok(text)
    }
}

// A name as a field.
fn field(alloc: Global, name: &Name) -> Result<String, AllocError>
    ensures { IfOk result (λ text. string_bytes text ≡ spec.field name.now) }
{
    still_text(alloc, shown(alloc, name)?)
}

// Appends the record of a group.
fn push_group(alloc: Global, out: &mut Vec<u8>, group: &Group) -> Result<(), AllocError>
    ensures { OnOk result (out.new.items ≡ out.old.items ++ spec.record_text (spec.fields_of group.now)) }
{
    let row = &group.row;
    let command = row.command.to_string(alloc)?;
    let kind = field(alloc, &row.kind)?;
    let start = field(alloc, &row.start)?;
    let end = field(alloc, &row.end)?;
    let pairs = group.pairs.to_string(alloc)?;
    let why = field(alloc, &row.why)?;
    let first = row.number.to_string(alloc)?;
    let fields: [&[u8]; 8] = [
        command.as_bytes(),
        kind.as_bytes(),
        start.as_bytes(),
        end.as_bytes(),
        pairs.as_bytes(),
        verdict_text(row.verdict).as_bytes(),
        why.as_bytes(),
        first.as_bytes(),
    ];
    push_record(alloc, out, &fields)
}

/// The groups of a report as comma-separated values (RFC 4180, with a newline after each record): a record of titles,
/// `command,kind,start,end,pairs,verdict,why,first`, and one for each group, in the order of `groups_text`. A `'` stands in
/// front of a field that a spreadsheet may run.
pub fn csv_text(alloc: Global, report: &Report) -> Result<Vec<u8>, AllocError>
    ensures { IfOk result (λ text. text.items ≡ spec.csv_text (groups_of report.now.pairs)) }
{
    let groups = groups_of(alloc, report.pairs.as_slice())?;
    let mut out = Vec::new(alloc);
    push_titles(alloc, &mut out)?;
    for group in groups.as_slice() {
        push_group(alloc, &mut out, group)?;
    }
    Ok(out)
}
