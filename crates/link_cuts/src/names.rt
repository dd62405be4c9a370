//! The cells that are cut out by name.
ghost use Rattle.std.specs.Prelude.{◌≡◌, ◌+◌, ◌<◌, length, slice_index_or, IfOk};
ghost use Rattle.link_defs.specs.declared.circuits.Circuit.{Circuit as CircuitRecord};
ghost use Rattle.link_defs.specs.Cuts.{cut_cell_name, cut_cell_names as spec_names, cut_pin_names, owned_pins, sink_count};
ghost use Rattle.link_design.specs.Trees.{tree_of};
ghost use Rattle.link_cuts.specs.Cutting.{IsCutOut, IsInCells, cell_at, own_pin};
ghost use Rattle.link_cuts.specs.Roles.{IsNamed, frame_of, role_at};

use crate::namings::Naming;
use crate::places::{PinPlace, pin_at};
use crate::roles::{free_outs, naming_of, role, with_sink};
use crate::rows::CutPins;
use link_defs::CutCell;
use linked_types::{CellName, PinName};
use sdcv_base::Seq;
use std::alloc::{AllocError, Global};

/// The cells that are cut out of a circuit by name, with what each of their pins is, by the design's number of each net. `nets`
/// stands for the number of a net that isn't in the design.
pub fn cut_cell_names(
    alloc: Global,
    pins: &CutPins,
    cells: &Seq<CutCell>,
    numbers: &Seq<usize>,
    nets: usize,
) -> Result<Seq<CellName>, AllocError>
    ensures { IfOk result (λ list. (c : CircuitRecord) → IsCutOut c cells.now pins.now → list ≡ spec_names (record {
      circuit = c;
      tree = tree_of pins.now.rows.tree;
      cells = cells.now;
      number = λ net. slice_index_or numbers.now net nets;
    }) 0 cells.now) }
{
    let n = naming_of(alloc, pins, cells, numbers, nets)?;
    let list = named_cells(alloc, &n)?;
    Ok(list)
}

/// The cells by name.
fn named_cells(alloc: Global, n: &Naming) -> Result<Seq<CellName>, AllocError>
    ensures { IfOk result (λ list. (c : CircuitRecord) → IsNamed n.now c → list ≡ spec_names (frame_of n.now c) 0 n.now.cells.now) }
{
    let mut list = Seq::new(alloc);
    let mut sinks = 0;
    for place in 0..n.cells.len() {
        let NamedCell { cell, sinks: count } = named_cell(alloc, n, place, sinks)?;
        list.push(cell)?;
        sinks = count;
    }
    Ok(list)
}

/// A cell by name, and how many sinks there are with its pins.
#[derive(Drop)]
struct NamedCell {
    cell: CellName,
    sinks: usize,
}

/// The cell at a place by name, after so many sinks.
fn named_cell(alloc: Global, n: &Naming, cell: usize, sinks: usize) -> Result<NamedCell, AllocError>
    requires { cell < length n.now.cells.now }
    ensures cell { IfOk result (λ named. (c : CircuitRecord) → IsNamed n.now c
        → named.cell ≡ cut_cell_name (frame_of n.now c) sinks (cell_at n.now.cells.now cell)) }
    ensures sinks { IfOk result (λ named. (c : CircuitRecord) → IsNamed n.now c
        → named.sinks ≡ sinks + sink_count (frame_of n.now c) (owned_pins (cell_at n.now.cells.now cell))) }
{
    let body = n.cells.item(cell);
    let name = body.name.copy(alloc)?;
    let outs = free_outs(alloc, n, body)?;
    let NamedPins { pins, sinks } = named_pins(alloc, n, cell, sinks)?;
    let cell = CellName {
        name,
        reg: None,
        outs,
        pins,
    };
    Ok(NamedCell { cell, sinks })
}

/// Pins by name, and how many sinks there are with them.
#[derive(Drop)]
struct NamedPins {
    pins: Seq<PinName>,
    sinks: usize,
}

/// The pins of the cell at a place by name, after so many sinks.
fn named_pins(alloc: Global, n: &Naming, cell: usize, sinks: usize) -> Result<NamedPins, AllocError>
    requires { cell < length n.now.cells.now }
    ensures pins { IfOk result (λ named. (c : CircuitRecord) → IsNamed n.now c
        → named.pins ≡ cut_pin_names (frame_of n.now c) sinks (owned_pins (cell_at n.now.cells.now cell))) }
    ensures sinks { IfOk result (λ named. (c : CircuitRecord) → IsNamed n.now c
        → named.sinks ≡ sinks + sink_count (frame_of n.now c) (owned_pins (cell_at n.now.cells.now cell))) }
{
    let mut pins = Seq::new(alloc);
    let mut count = sinks;
    for pin in 0..n.cells.item(cell).pins.len() {
        let at = PinPlace { cell, pin };
        pins.push(named_pin(alloc, n, at, count)?)?;
        count = with_sink(n, at, count)?;
    }
    Ok(NamedPins { pins, sinks: count })
}

/// The pin at a place by name, after so many sinks.
fn named_pin(alloc: Global, n: &Naming, at: PinPlace, sinks: usize) -> Result<PinName, AllocError>
    requires { IsInCells n.now.cells.now at }
    ensures { IfOk result (λ named. named ≡ record { name = (own_pin (cell_at n.now.cells.now at.cell) at.pin).name; role = role_at n.now sinks at }) }
{
    let name = pin_at(n.cells, at).name.copy(alloc)?;
    let role = role(alloc, n, at, sinks)?;
    Ok(PinName { name, role })
}
