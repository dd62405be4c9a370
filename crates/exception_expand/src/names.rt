//! The names of starts and ends.
ghost use Rattle.std.specs.Prelude.{◌≡◌, ◌+◌, ◌<◌, IfOk, length, slice_get};
ghost use Rattle.net_model.specs.Fits.{IsStartIn, IsEndIn};
ghost use Rattle.linked_types.specs.Inputs.{input_names, output_names};
ghost use Rattle.linked_types.specs.Usable.{IsUsable};
ghost use Rattle.exception_expand.specs.Naming as spec;

use linked_types::{CellName, Linked, Names};
use net_model::{End, Start};
use sdcv_base::{Name, Seq};
use std::alloc::{AllocError, Global};

/// The places of the cells of registers.
pub(crate) fn reg_cells(alloc: Global, linked: &Linked) -> Result<Seq<Option<usize>>, AllocError>
    ensures { IfOk result (spec.AreRegCells linked.now) }
{
    let cells = &linked.names.cells;
    let mut row = Seq::filled(alloc, None, linked.design.regs.len())?;
    for k in (0..cells.len()).rev() {
        put_cell(cells, k, &mut row);
    }
    Ok(row)
}

// Puts the cell at a place before those after it.
fn put_cell(cells: &Seq<CellName>, k: usize, row: &mut Seq<Option<usize>>)
    requires here { k < length cells.now }
    requires cells { spec.AreCellsFrom cells.now (k + 1) (length row.old) row.old }
    ensures { spec.AreCellsFrom cells.now k (length row.old) row.new }
{
    match cells.item(k).reg {
        Some(reg) => {
            if reg < row.len() {
                row.put(reg, Some(k));
            }
        }
        None => {}
    }
}

/// The name of a start.
pub(crate) fn start_name(
    alloc: Global,
    linked: &Linked,
    cells: &Seq<Option<usize>>,
    start: Start,
) -> Result<Name, AllocError>
    requires usable { IsUsable linked.now }
    requires start { IsStartIn linked.now.design start }
    requires cells { spec.AreRegCells linked.now cells.now }
    ensures { IfOk result (λ name. name ≡ spec.start_name linked.now start) }
{
    match start {
        Start::Reg(reg) => reg_name(alloc, linked, cells, reg),
        Start::Input(input) => input_name(alloc, &linked.names, input),
    }
}

/// The name of an end.
pub(crate) fn end_name(
    alloc: Global,
    linked: &Linked,
    cells: &Seq<Option<usize>>,
    end: End,
) -> Result<Name, AllocError>
    requires usable { IsUsable linked.now }
    requires end { IsEndIn linked.now.design end }
    requires cells { spec.AreRegCells linked.now cells.now }
    ensures { IfOk result (λ name. name ≡ spec.end_name linked.now end) }
{
    match end {
        End::Reg(reg) => reg_name(alloc, linked, cells, reg),
        End::Output(output) => output_name(alloc, &linked.names, output),
    }
}

fn reg_name(
    alloc: Global,
    linked: &Linked,
    cells: &Seq<Option<usize>>,
    reg: usize,
) -> Result<Name, AllocError>
    requires reg { reg < length linked.now.design.regs }
    requires cells { spec.AreRegCells linked.now cells.now }
    ensures { IfOk result (λ name. name ≡ spec.reg_name linked.now.names.cells reg) }
{
    cell_name(alloc, &linked.names.cells, cells.at(reg))
}

fn cell_name(alloc: Global, cells: &Seq<CellName>, place: Option<usize>) -> Result<Name, AllocError>
    ensures { IfOk result (λ name. name ≡ spec.name_of cells.now place) }
{
    match place {
        Some(place) => name_at(alloc, cells, place),
        None => Name::new(alloc, &[]),
    }
}

fn name_at(alloc: Global, cells: &Seq<CellName>, place: usize) -> Result<Name, AllocError>
    ensures { IfOk result (λ name. name ≡ spec.cell_name (slice_get cells.now place)) }
{
    match cells.as_slice().get(place) {
        Some(cell) => cell.name.copy(alloc),
        None => Name::new(alloc, &[]),
    }
}

fn input_name(alloc: Global, names: &Names, input: usize) -> Result<Name, AllocError>
    requires { input < length (input_names names.now) }
    ensures { IfOk result (λ name. name ≡ spec.name_there (slice_get (input_names names.now) input)) }
{
    names.input(input).copy(alloc)
}

fn output_name(alloc: Global, names: &Names, output: usize) -> Result<Name, AllocError>
    requires { output < length (output_names names.now) }
    ensures { IfOk result (λ name. name ≡ spec.name_there (slice_get (output_names names.now) output)) }
{
    names.output(output).copy(alloc)
}
