//! The order of a stimulus's bits.
ghost use Rattle.std.specs.Prelude.{◌≡◌, ◌+◌, ◌++◌, flat_map, IfOk, OnOk, string_bytes};
ghost use Rattle.wave_signals.specs.Numbered.{numbered};
ghost use Rattle.linked_types.specs.Inputs.{input_names};
ghost use Rattle.named_runs.specs.BitTexts as spec;

use linked_types::{CellName, Linked, Names};
use sdcv_base::Name;
use std::alloc::{AllocError, Global};

/// Appends the line of a bit, given its place from 0.
fn push_row(
    alloc: Global,
    text: &mut Vec<u8>,
    word: &str,
    place: usize,
    name: &Name,
) -> Result<(), AllocError>
    ensures { OnOk result (text.new.items ≡ text.old.items ++ spec.row word.now place name.now) }
{
    let number = (place as u64).checked_add(1).ok_or(AllocError)?;
    let line = row_text(alloc, word, number, name)?;
    text.extend_from_slice(line.as_bytes())?;
    Ok(text.push(b'\n')?)
}

fn row_text(alloc: Global, word: &str, number: u64, name: &Name) -> Result<String, AllocError>
    ensures { IfOk result (λ text. string_bytes text ≡ spec.row_text word.now number name.now) }
{
    format!(in alloc; "{word} {number} {name}")
}

fn push_cell(alloc: Global, text: &mut Vec<u8>, cell: &CellName) -> Result<(), AllocError>
    ensures { OnOk result (text.new.items ≡ text.old.items ++ spec.state_rows cell.now) }
{
    match cell.reg {
        None => Ok(()),
        Some(reg) => push_row(alloc, text, "state", reg, &cell.name),
    }
}

fn push_states(alloc: Global, text: &mut Vec<u8>, cells: &[CellName]) -> Result<(), AllocError>
    ensures { OnOk result (text.new.items ≡ text.old.items ++ flat_map spec.state_rows cells.now) }
{
    for cell in cells {
        push_cell(alloc, text, cell)?;
    }
    Ok(())
}

fn push_inputs(alloc: Global, text: &mut Vec<u8>, names: &Names) -> Result<(), AllocError>
    ensures { OnOk result (text.new.items ≡ text.old.items ++ numbered spec.input_row 0 (input_names names.now)) }
{
    for place in 0..names.input_count()? {
        push_row(alloc, text, "input", place, names.input(place))?;
    }
    Ok(())
}

/// The bits of a stimulus in their order, a line each: `state 1 u_path/a_reg[0]` for the first register bit of a block's `state`,
/// `input 1 rst_n` for the first bit of each `input`. Numbers count from 1.
pub fn bits_text(alloc: Global, linked: &Linked) -> Result<Vec<u8>, AllocError>
    ensures { IfOk result (λ text. text.items ≡ spec.bits_text linked.now) }
{
    let mut text = Vec::new(alloc);
    push_states(alloc, &mut text, linked.names.cells.as_slice())?;
    push_inputs(alloc, &mut text, &linked.names)?;
    Ok(text)
}
