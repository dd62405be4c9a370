//! What the cells that are cut out of a design stand for.
ghost use Rattle.std.specs.Prelude.{◌≡◌, ◌++◌, not, Bool, Option, None, IfOk, OnOk, slice_get};
ghost use Rattle.linked_types.specs.declared.names.PinName.{PinName as PinRecord};
ghost use Rattle.std.specs.List.{list_any};
ghost use Rattle.sdc_objects.specs.Cuts as cuts;
ghost use Rattle.sdc_objects.specs.Standing as spec;

use linked_types::{CellName, PinName, PinRole};
use net_model::{End, Start};
use sdcv_base::Seq;
use std::alloc::AllocError;

/// Adds the starts of the cell at a place: its register, or the inputs that a clocked cell drives which is cut out.
pub(crate) fn add_cell_starts(
    cells: &Seq<CellName>,
    k: usize,
    found: &mut Seq<Start>,
) -> Result<bool, AllocError>
    ensures kept { (cut : Bool) → IfOk result (λ kept. kept ≡ not (spec.is_dropped (spec.cell_at_row cut (slice_get cells.now k)).from)) }
    ensures added { (cut : Bool) → OnOk result (found.new ≡ found.old ++ spec.meant_by (spec.cell_at_row cut (slice_get cells.now k)).from) }
{
    match cells.as_slice().get(k) {
        Some(cell) => add_starts_of(&cell.pins, cell.reg, found),
        None => Ok(false),
    }
}

fn add_starts_of(
    pins: &Seq<PinName>,
    reg: Option<usize>,
    found: &mut Seq<Start>,
) -> Result<bool, AllocError>
    ensures kept { IfOk result (λ kept. kept ≡ not (spec.is_dropped (spec.cell_starts pins.now reg))) }
    ensures added { OnOk result (found.new ≡ found.old ++ spec.meant_by (spec.cell_starts pins.now reg)) }
{
    match reg {
        Some(reg) => {
            found.push(Start::Reg(reg))?;
            Ok(true)
        }
        None => add_clocked_starts(pins, found),
    }
}

// Of a cell that is no register.
fn add_clocked_starts(pins: &Seq<PinName>, found: &mut Seq<Start>) -> Result<bool, AllocError>
    ensures kept { IfOk result (λ kept. kept ≡ not (spec.is_dropped (spec.cell_starts pins.now None))) }
    ensures added { OnOk result (found.new ≡ found.old ++ spec.meant_by (spec.cell_starts pins.now None)) }
{
    if is_clocked(pins) {
        add_sources(pins, found)?;
        Ok(true)
    } else {
        Ok(false)
    }
}

/// Adds the ends of the cell at a place: its register, or the outputs that a clocked cell reads for which is cut out.
pub(crate) fn add_cell_ends(
    cells: &Seq<CellName>,
    k: usize,
    found: &mut Seq<End>,
) -> Result<bool, AllocError>
    ensures kept { (cut : Bool) → IfOk result (λ kept. kept ≡ not (spec.is_dropped (spec.cell_at_row cut (slice_get cells.now k)).to)) }
    ensures added { (cut : Bool) → OnOk result (found.new ≡ found.old ++ spec.meant_by (spec.cell_at_row cut (slice_get cells.now k)).to) }
{
    match cells.as_slice().get(k) {
        Some(cell) => add_ends_of(&cell.pins, cell.reg, found),
        None => Ok(false),
    }
}

fn add_ends_of(
    pins: &Seq<PinName>,
    reg: Option<usize>,
    found: &mut Seq<End>,
) -> Result<bool, AllocError>
    ensures kept { IfOk result (λ kept. kept ≡ not (spec.is_dropped (spec.cell_ends pins.now reg))) }
    ensures added { OnOk result (found.new ≡ found.old ++ spec.meant_by (spec.cell_ends pins.now reg)) }
{
    match reg {
        Some(reg) => {
            found.push(End::Reg(reg))?;
            Ok(true)
        }
        None => add_clocked_ends(pins, found),
    }
}

fn add_clocked_ends(pins: &Seq<PinName>, found: &mut Seq<End>) -> Result<bool, AllocError>
    ensures kept { IfOk result (λ kept. kept ≡ not (spec.is_dropped (spec.cell_ends pins.now None))) }
    ensures added { OnOk result (found.new ≡ found.old ++ spec.meant_by (spec.cell_ends pins.now None)) }
{
    if is_clocked(pins) {
        add_sinks(pins, found)?;
        Ok(true)
    } else {
        Ok(false)
    }
}

/// Whether a cell with these pins is cut out and has the judged clock.
pub(crate) fn is_clocked(pins: &Seq<PinName>) -> bool
    ensures { result ≡ cuts.is_clocked pins.now }
{
    for k in 0..pins.len() {
        if is_side(&pins.item(k).role) {
            return true;
        }
    }
    false
}

fn is_side(role: &PinRole) -> bool
    ensures { result ≡ cuts.is_side role.now }
{
    match role {
        PinRole::Source(_) | PinRole::Sink(_) => true,
        PinRole::Clock | PinRole::Load(_) | PinRole::Drive(_) => false,
    }
}

/// Adds the starts at the pins of all cells that are cut out.
pub(crate) fn add_all_sources(
    cells: &Seq<CellName>,
    found: &mut Seq<Start>,
) -> Result<(), AllocError>
    ensures { OnOk result (found.new ≡ found.old ++ cuts.all_sources cells.now) }
{
    for k in 0..cells.len() {
        add_sources(&cells.item(k).pins, found)?;
    }
    Ok(())
}

fn add_sources(pins: &Seq<PinName>, found: &mut Seq<Start>) -> Result<(), AllocError>
    ensures { OnOk result (found.new ≡ found.old ++ cuts.source_starts pins.now) }
{
    for k in 0..pins.len() {
        add_source(&pins.item(k).role, found)?;
    }
    Ok(())
}

fn add_source(role: &PinRole, found: &mut Seq<Start>) -> Result<(), AllocError>
    ensures { OnOk result (found.new ≡ found.old ++ cuts.source_start role.now) }
{
    if let PinRole::Source(input) = role {
        found.push(Start::Input(*input))?;
    }
    Ok(())
}

/// Adds the ends at the pins of all cells that are cut out.
pub(crate) fn add_all_sinks(cells: &Seq<CellName>, found: &mut Seq<End>) -> Result<(), AllocError>
    ensures { OnOk result (found.new ≡ found.old ++ cuts.all_sinks cells.now) }
{
    for k in 0..cells.len() {
        add_sinks(&cells.item(k).pins, found)?;
    }
    Ok(())
}

fn add_sinks(pins: &Seq<PinName>, found: &mut Seq<End>) -> Result<(), AllocError>
    ensures { OnOk result (found.new ≡ found.old ++ cuts.sink_ends pins.now) }
{
    for k in 0..pins.len() {
        add_sink(&pins.item(k).role, found)?;
    }
    Ok(())
}

fn add_sink(role: &PinRole, found: &mut Seq<End>) -> Result<(), AllocError>
    ensures { OnOk result (found.new ≡ found.old ++ cuts.sink_end role.now) }
{
    if let PinRole::Sink(output) = role {
        found.push(End::Output(*output))?;
    }
    Ok(())
}
