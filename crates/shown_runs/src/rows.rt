//! The table of a run.
ghost use Rattle.std.specs.Prelude.{◌≡◌, ◌+◌, ◌++◌, IfOk, OnOk, map, string_bytes};
ghost use Rattle.std.specs.List.{list_any, range_with_len};
ghost use Rattle.std.specs.Fmt.{decimal};
ghost use Rattle.shown_runs.specs.Rows as spec;
ghost use Rattle.shown_runs.specs.Values.{value_text};

use crate::dont_cares::is_marked;
use crate::headings::Heading;
use crate::pieces::{bit_text, label_text};
use crate::runs::ShownRun;
use crate::tables::TableRow;
use crate::values::value_text;
use sdcv_base::{Name, Seq};
use std::alloc::{AllocError, Global};
use wave_signals::{Signal, digit_at};

pub(crate) fn name_of(text: String) -> Name
    ensures { result ≡ string_bytes text }
{
    Name::from_vec(text.into_bytes())
}

fn number_text(alloc: Global, cycle: usize) -> Result<String, AllocError>
    ensures { IfOk result (λ text. string_bytes text ≡ decimal cycle) }
{
    format!(in alloc; "{cycle}")
}

fn number_cells(alloc: Global, cycles: usize) -> Result<Seq<Name>, AllocError>
    ensures { IfOk result (λ cells. cells ≡ map decimal (range_with_len 0 cycles)) }
{
    let mut cells = Seq::new(alloc);
    for cycle in 0..cycles {
        cells.push(name_of(number_text(alloc, cycle)?))?;
    }
    Ok(cells)
}

fn number_row(alloc: Global, cycles: usize) -> Result<TableRow, AllocError>
    ensures { IfOk result (λ row. row ≡ spec.number_row cycles) }
{
    Ok(TableRow {
        label: Name::new(alloc, b"cycle")?,
        cells: number_cells(alloc, cycles)?,
    })
}

/// The sum of two numbers. One that has no place in memory is want of memory.
pub(crate) fn plus(first: usize, more: usize) -> Result<usize, AllocError>
    ensures { IfOk result (λ sum. sum ≡ first + more) }
{
    first.checked_add(more).ok_or(AllocError)
}

/// Appends the digit of an input's bit in a cycle, or an `x` where that bit is a don't-care.
fn push_digit(
    text: &mut Vec<u8>,
    marks: &Seq<Seq<bool>>,
    cycle: usize,
    input: usize,
    values: &Seq<bool>,
) -> Result<(), AllocError>
    ensures { OnOk result (text.new.items ≡ text.old.items ++ spec.input_digit marks.now cycle input values.now) }
{
    if is_marked(marks, cycle, input) {
        Ok(text.push(b'x')?)
    } else {
        Ok(text.push(digit_at(values, cycle))?)
    }
}

fn input_cell(
    alloc: Global,
    marks: &Seq<Seq<bool>>,
    input: usize,
    signal: &Signal,
    cycle: usize,
) -> Result<Name, AllocError>
    ensures { IfOk result (λ cell. cell ≡ spec.input_digits marks.now input signal.now cycle) }
{
    let mut text = Vec::new(alloc);
    for place in 0..signal.values.len() {
        let number = plus(input, place)?;
        let values = signal.values.item(place);
        push_digit(&mut text, marks, cycle, number, values)?;
    }
    Ok(Name::from_vec(text))
}

pub(crate) fn input_cells(
    alloc: Global,
    marks: &Seq<Seq<bool>>,
    cycles: usize,
    input: usize,
    signal: &Signal,
) -> Result<Seq<Name>, AllocError>
    ensures { IfOk result (λ cells. cells ≡ spec.input_cells marks.now cycles input signal.now) }
{
    let mut cells = Seq::new(alloc);
    for cycle in 0..cycles {
        cells.push(input_cell(alloc, marks, input, signal, cycle)?)?;
    }
    Ok(cells)
}

/// Whether a digit of a cell is no `0`.
fn is_set(cell: &Name) -> bool
    ensures { result ≡ spec.is_set cell.now }
{
    cell.as_bytes().iter().any(|digit| *digit != b'0')
}

fn is_any_set(cells: &[Name]) -> bool
    ensures { result ≡ list_any spec.is_set cells.now }
{
    cells.iter().any(|cell| is_set(cell))
}

pub(crate) fn is_zero(cells: &[Name]) -> bool
    ensures { result ≡ spec.is_zero cells.now }
{
    !is_any_set(cells)
}

fn value_cells(alloc: Global, cells: &[Name]) -> Result<Seq<Name>, AllocError>
    ensures { IfOk result (λ values. values ≡ map value_text cells.now) }
{
    let mut values = Seq::new(alloc);
    for cell in cells {
        values.push(value_text(alloc, cell.as_bytes())?)?;
    }
    Ok(values)
}

/// Adds the row of a signal with these digits, unless it is 0 throughout.
fn add_values(
    alloc: Global,
    signal: &Signal,
    cells: &[Name],
    rows: &mut Seq<TableRow>,
) -> Result<(), AllocError>
    ensures { OnOk result (rows.new ≡ rows.old ++ spec.value_rows signal.now cells.now) }
{
    if !is_zero(cells) {
        rows.push(TableRow {
            label: name_of(label_text(alloc, signal)?),
            cells: value_cells(alloc, cells)?,
        })?;
    }
    Ok(())
}

fn add_input(
    alloc: Global,
    marks: &Seq<Seq<bool>>,
    cycles: usize,
    input: usize,
    signal: &Signal,
    rows: &mut Seq<TableRow>,
) -> Result<(), AllocError>
    ensures { OnOk result (rows.new ≡ rows.old ++ spec.input_row marks.now cycles input signal.now) }
{
    let cells = input_cells(alloc, marks, cycles, input, signal)?;
    add_values(alloc, signal, cells.as_slice(), rows)
}

fn bit_cells(alloc: Global, bits: &[bool]) -> Result<Seq<Name>, AllocError>
    ensures { IfOk result (λ cells. cells ≡ map spec.bit_text bits.now) }
{
    let mut cells = Seq::new(alloc);
    for bit in bits {
        cells.push(Name::new(alloc, bit_text(*bit).as_bytes())?)?;
    }
    Ok(cells)
}

fn bits_row(alloc: Global, label: String, bits: &Seq<bool>) -> Result<TableRow, AllocError>
    ensures { IfOk result (λ row. row ≡ spec.bits_row (string_bytes label) bits.now) }
{
    Ok(TableRow {
        label: name_of(label),
        cells: bit_cells(alloc, bits.as_slice())?,
    })
}

fn start_label(alloc: Global, heading: &Heading) -> Result<String, AllocError>
    ensures { IfOk result (λ text. string_bytes text ≡ spec.start_label heading.now) }
{
    let start = &heading.start;
    format!(in alloc; "start {start}")
}

fn end_label(alloc: Global, heading: &Heading) -> Result<String, AllocError>
    ensures { IfOk result (λ text. string_bytes text ≡ spec.end_label heading.now) }
{
    let end = &heading.end;
    format!(in alloc; "end {end}")
}

/// Adds the rows of the inputs that are not 0 throughout.
fn add_inputs(
    alloc: Global,
    marks: &Seq<Seq<bool>>,
    cycles: usize,
    signals: &[Signal],
    rows: &mut Seq<TableRow>,
) -> Result<(), AllocError>
    ensures { OnOk result (rows.new ≡ rows.old ++ spec.walked (spec.input_row marks.now cycles) 0 signals.now) }
{
    let mut input: usize = 0;
    for signal in signals {
        add_input(alloc, marks, cycles, input, signal, rows)?;
        input = plus(input, signal.values.len())?;
    }
    Ok(())
}

/// Adds the row of the end's states, where it has states.
fn add_end(
    alloc: Global,
    heading: &Heading,
    states: &Option<Seq<bool>>,
    rows: &mut Seq<TableRow>,
) -> Result<(), AllocError>
    ensures { OnOk result (rows.new ≡ rows.old ++ spec.end_rows heading.now states.now) }
{
    if let Some(bits) = states {
        rows.push(bits_row(alloc, end_label(alloc, heading)?, bits)?)?;
    }
    Ok(())
}

/// Adds the rows of the start, the end and the captures.
fn add_ends(
    alloc: Global,
    heading: &Heading,
    shown: &ShownRun,
    rows: &mut Seq<TableRow>,
) -> Result<(), AllocError>
    ensures { OnOk result (rows.new ≡ rows.old ++ spec.ends_rows heading.now shown.now) }
{
    rows.push(bits_row(alloc, start_label(alloc, heading)?, &shown.start)?)?;
    add_end(alloc, heading, &shown.end, rows)?;
    let label = String::from_str(alloc, "captured")?;
    rows.push(bits_row(alloc, label, &shown.captured)?)?;
    Ok(())
}

/// The rows of the table: the numbers of the cycles, the inputs that are not 0 throughout, the start, the end and the captures.
#[tactic(auto, unfolding(crate::specs::Rows::rows))]
pub(crate) fn rows_of(
    alloc: Global,
    heading: &Heading,
    shown: &ShownRun,
) -> Result<Seq<TableRow>, AllocError>
    ensures { IfOk result (λ rows. rows ≡ spec.rows heading.now shown.now) }
{
    let mut rows = Seq::new(alloc);
    rows.push(number_row(alloc, shown.cycles)?)?;
    let inputs = shown.inputs.as_slice();
    add_inputs(alloc, &shown.dont_cares, shown.cycles, inputs, &mut rows)?;
    add_ends(alloc, heading, shown, &mut rows)?;
    Ok(rows)
}
