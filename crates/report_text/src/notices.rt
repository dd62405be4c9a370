//! The lines of what is told of a netlist, and of a script beside its exceptions.
ghost use Rattle.std.specs.Prelude.{◌≡◌, ◌++◌, map, IfOk, OnOk, string_bytes};
ghost use Rattle.witness_replay.specs.StimulusTexts.{line_of};
ghost use Rattle.report_text.specs.Notices as spec;
ghost use Rattle.report_text.specs.Reports.{bytes_of_lines};

use crate::adding::add_line;
use crate::cuts::add_netlist;
use sdcv_base::Seq;
use selected_types::{Notices, Skipped, Unjudged};
use std::alloc::{AllocError, Global};

fn skipped_text(alloc: Global, skipped: &Skipped) -> Result<String, AllocError>
    ensures { IfOk result (λ text. string_bytes text ≡ spec.skipped_text skipped.now) }
{
    let name = &skipped.name;
    let count = skipped.count;
    format!(in alloc; "skipped {name} {count}")
}

fn unjudged_text(alloc: Global, unjudged: &Unjudged) -> Result<String, AllocError>
    ensures { IfOk result (λ text. string_bytes text ≡ spec.unjudged_text unjudged.now) }
{
    let line = unjudged.line;
    let name = &unjudged.name;
    format!(in alloc; "warning line {line} unjudged {name}")
}

fn hold_text(alloc: Global, count: u64) -> Result<String, AllocError>
    ensures { IfOk result (λ text. string_bytes text ≡ spec.hold_text count) }
{
    format!(in alloc; "note hold side not judged commands {count}")
}

fn add_skipped(
    alloc: Global,
    skipped: &Seq<Skipped>,
    lines: &mut Vec<Vec<u8>>,
) -> Result<(), AllocError>
    ensures { OnOk result (bytes_of_lines lines.new.items ≡ bytes_of_lines lines.old.items ++ map line_of (map spec.skipped_text skipped.now)) }
{
    for row in skipped.as_slice() {
        add_line(skipped_text(alloc, row)?, lines)?;
    }
    Ok(())
}

// Adds the commands that are passed over, where any may be.
fn add_all_skipped(
    alloc: Global,
    skipped: &Option<Seq<Skipped>>,
    lines: &mut Vec<Vec<u8>>,
) -> Result<(), AllocError>
    ensures { OnOk result (bytes_of_lines lines.new.items ≡ bytes_of_lines lines.old.items ++ map line_of (spec.skipped_texts skipped.now)) }
{
    match skipped {
        Some(skipped) => add_skipped(alloc, skipped, lines),
        None => Ok(()),
    }
}

fn add_unjudged(
    alloc: Global,
    unjudged: &Seq<Unjudged>,
    lines: &mut Vec<Vec<u8>>,
) -> Result<(), AllocError>
    ensures { OnOk result (bytes_of_lines lines.new.items ≡ bytes_of_lines lines.old.items ++ map line_of (map spec.unjudged_text unjudged.now)) }
{
    for row in unjudged.as_slice() {
        add_line(unjudged_text(alloc, row)?, lines)?;
    }
    Ok(())
}

// Adds how many false paths have a hold side that is not judged, where any has.
fn add_holds(alloc: Global, count: u64, lines: &mut Vec<Vec<u8>>) -> Result<(), AllocError>
    ensures { OnOk result (bytes_of_lines lines.new.items ≡ bytes_of_lines lines.old.items ++ map line_of (spec.hold_texts count)) }
{
    if count == 0 {
        return Ok(());
    }
    add_line(hold_text(alloc, count)?, lines)
}

// Adds the lines of what is told of a script.
fn add_script(alloc: Global, notices: &Notices, lines: &mut Vec<Vec<u8>>) -> Result<(), AllocError>
    ensures { OnOk result (bytes_of_lines lines.new.items ≡ bytes_of_lines lines.old.items ++ map line_of (spec.script_texts notices.now)) }
{
    add_all_skipped(alloc, &notices.skipped, lines)?;
    add_unjudged(alloc, &notices.unjudged, lines)?;
    add_holds(alloc, notices.hold_commands, lines)
}

/// Adds the lines of what is told of a netlist, and of a script beside its exceptions, each with the newline that ends it.
pub fn add_notices(
    alloc: Global,
    notices: &Notices,
    lines: &mut Vec<Vec<u8>>,
) -> Result<(), AllocError>
    ensures { OnOk result (bytes_of_lines lines.new.items ≡ bytes_of_lines lines.old.items ++ spec.notice_lines notices.now) }
{
    add_netlist(alloc, notices, lines)?;
    add_script(alloc, notices, lines)
}
