//! The lines of what is told of a netlist: its top module, its clock, and the cells that are cut out of it.
ghost use Rattle.std.specs.Prelude.{◌≡◌, ◌++◌, map, IfOk, OnOk, string_bytes};
ghost use Rattle.witness_replay.specs.StimulusTexts.{line_of};
ghost use Rattle.report_text.specs.Notices as spec;
ghost use Rattle.report_text.specs.Reports.{bytes_of_lines};

use crate::adding::add_line;
use crate::words::flag_text;
use sdcv_base::{Name, Seq};
use selected_types::{CutCells, Notices};
use std::alloc::{AllocError, Global};

fn named_text(alloc: Global, word: &str, name: &Name) -> Result<String, AllocError>
    ensures { IfOk result (λ text. string_bytes text ≡ spec.named_text word.now name.now) }
{
    format!(in alloc; "{word} {name}")
}

fn cut_text(alloc: Global, cut: &CutCells) -> Result<String, AllocError>
    ensures { IfOk result (λ text. string_bytes text ≡ spec.cut_text cut.now) }
{
    let cell = &cut.cell;
    let count = cut.count;
    let open = flag_text(" open", cut.open);
    format!(in alloc; "cut {cell} {count}{open}")
}

// Adds the line of the top module or the clock, where it is asked for by its name.
fn add_named(
    alloc: Global,
    word: &str,
    name: &Option<Name>,
    lines: &mut Vec<Vec<u8>>,
) -> Result<(), AllocError>
    ensures { OnOk result (bytes_of_lines lines.new.items ≡ bytes_of_lines lines.old.items ++ map line_of (spec.named_texts word.now name.now)) }
{
    match name {
        Some(name) => add_line(named_text(alloc, word, name)?, lines),
        None => Ok(()),
    }
}

fn add_cuts(alloc: Global, cuts: &Seq<CutCells>, lines: &mut Vec<Vec<u8>>) -> Result<(), AllocError>
    ensures { OnOk result (bytes_of_lines lines.new.items ≡ bytes_of_lines lines.old.items ++ map line_of (map spec.cut_text cuts.now)) }
{
    for row in cuts.as_slice() {
        add_line(cut_text(alloc, row)?, lines)?;
    }
    Ok(())
}

/// Adds the lines of what is told of a netlist.
pub(crate) fn add_netlist(
    alloc: Global,
    notices: &Notices,
    lines: &mut Vec<Vec<u8>>,
) -> Result<(), AllocError>
    ensures { OnOk result (bytes_of_lines lines.new.items ≡ bytes_of_lines lines.old.items ++ map line_of (spec.netlist_texts notices.now)) }
{
    add_named(alloc, "top", &notices.top, lines)?;
    add_named(alloc, "clock", &notices.clock, lines)?;
    add_cuts(alloc, &notices.cuts, lines)
}
