//! Tables: rows with a label and cells, laid out in columns.
ghost use Rattle.std.specs.Prelude.{◌≡◌, ◌-◌, ◌++◌, IfOk, OnOk, length, map, replicate};
ghost use Rattle.std.specs.List.{range_with_len};
ghost use Rattle.wave_signals.specs.Numbered.{numbered};
ghost use Rattle.shown_runs.specs.Tables as spec;

use sdcv_base::{Name, Seq};
use std::alloc::{AllocError, Global};

/// A row of a table: its label, and a cell for each column.
#[derive(Drop)]
pub struct TableRow {
    pub label: Name,
    pub cells: Seq<Name>,
}

/// How wide the labels are, and the cells of each column.
#[derive(Drop)]
pub struct Widths {
    pub label: usize,
    pub columns: Seq<usize>,
}

#[tactic(auto, using(std::proofs::lemmas::List::Sums::fold_more))]
fn label_width(rows: &[TableRow]) -> usize
    ensures { result ≡ spec.label_width rows.now }
{
    let mut width: usize = 0;
    for row in rows {
        width = width.max(row.label.as_bytes().len());
    }
    width
}

fn cell_len(row: &TableRow, column: usize) -> usize
    ensures { result ≡ length (spec.cell_in column row.now) }
{
    match row.cells.as_slice().get(column) {
        Some(cell) => cell.as_bytes().len(),
        None => 0,
    }
}

#[tactic(auto, using(std::proofs::lemmas::List::Sums::fold_more))]
fn column_width(rows: &[TableRow], column: usize) -> usize
    ensures { result ≡ spec.column_width rows.now column }
{
    let mut width: usize = 0;
    for row in rows {
        width = width.max(cell_len(row, column));
    }
    width
}

fn column_widths(alloc: Global, rows: &[TableRow], columns: usize) -> Result<Seq<usize>, AllocError>
    ensures { IfOk result (λ widths. widths ≡ map (spec.column_width rows.now) (range_with_len 0 columns)) }
{
    let mut widths = Seq::new(alloc);
    for column in 0..columns {
        widths.push(column_width(rows, column))?;
    }
    Ok(widths)
}

fn widths_of(alloc: Global, columns: usize, rows: &[TableRow]) -> Result<Widths, AllocError>
    ensures { IfOk result (λ widths. widths ≡ spec.widths_of columns rows.now) }
{
    Ok(Widths {
        label: label_width(rows),
        columns: column_widths(alloc, rows, columns)?,
    })
}

/// Appends so many spaces.
fn push_spaces(text: &mut Vec<u8>, count: usize) -> Result<(), AllocError>
    ensures { OnOk result (text.new.items ≡ text.old.items ++ replicate count 32) }
{
    for _ in 0..count {
        text.push(b' ')?;
    }
    Ok(())
}

fn push_cell(
    text: &mut Vec<u8>,
    widths: &Widths,
    column: usize,
    cell: &Name,
) -> Result<(), AllocError>
    ensures { OnOk result (text.new.items ≡ text.old.items ++ spec.cell_text widths.now column cell.now) }
{
    let width = widths.columns.as_slice().get(column).copied().unwrap_or(0);
    let cell = cell.as_bytes();
    text.extend_from_slice(b"  ")?;
    push_spaces(text, width.saturating_sub(cell.len()))?;
    text.extend_from_slice(cell)
}

fn push_cells(text: &mut Vec<u8>, widths: &Widths, cells: &Seq<Name>) -> Result<(), AllocError>
    ensures { OnOk result (text.new.items ≡ text.old.items ++ numbered (spec.cell_text widths.now) 0 cells.now) }
{
    for column in 0..cells.len() {
        let cell = cells.item(column);
        push_cell(text, widths, column, cell)?;
    }
    Ok(())
}

fn row_text(alloc: Global, widths: &Widths, row: &TableRow) -> Result<Name, AllocError>
    ensures { IfOk result (λ text. text ≡ spec.row_text widths.now row.now) }
{
    let label = row.label.as_bytes();
    let mut text = Vec::from_slice(alloc, label)?;
    push_spaces(&mut text, widths.label.saturating_sub(label.len()))?;
    push_cells(&mut text, widths, &row.cells)?;
    Ok(Name::from_vec(text))
}

/// Adds a line for each row, of so many columns.
#[tactic(auto, unfolding(crate::specs::Tables::table))]
pub(crate) fn add_table(
    alloc: Global,
    columns: usize,
    rows: &[TableRow],
    lines: &mut Seq<Name>,
) -> Result<(), AllocError>
    ensures { OnOk result (lines.new ≡ lines.old ++ spec.table columns rows.now) }
{
    let widths = widths_of(alloc, columns, rows)?;
    for row in rows {
        lines.push(row_text(alloc, &widths, row)?)?;
    }
    Ok(())
}
