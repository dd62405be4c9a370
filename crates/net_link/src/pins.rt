//! The pins of cells.
ghost use Rattle.std.specs.Prelude.{◌≡◌, ◌++◌, ◌∷◌, ◌-◌, ◌<◌, [], map, zip, length, IfOk, OnOk};
ghost use Rattle.std.specs.Option.{option_copied};
ghost use Rattle.net_model.specs.declared.claims.PinRef.TheVariants.{GateIn};
ghost use Rattle.net_model.specs.declared.netlist.Gate.{Gate as GateRecord};
ghost use Rattle.link_defs.specs.CellNames.{clock_role, input_roles, loads as spec_loads, out_pins, pin_names as spec_pins, pins_if_any, tree_pins as spec_tree};
ghost use Rattle.net_link.specs.Numbers.{number_in};
ghost use Rattle.net_link.specs.Places.{cell_at as spec_cell, drive_role, data_roles};

use crate::numbers::Numbering;
use crate::outs::{drive_numbers, out_names};
use cell_types::{Cell, CellKind, Library};
use link_defs::Part;
use linked_types::{PinName, PinRole};
use net_model::{Gate, PinRef};
use sdcv_base::{Name, Seq};
use std::alloc::{AllocError, Global};

/// The pins of gates that read with the input pin at a place of their part.
fn gate_loads(
    alloc: Global,
    n: &Numbering,
    gates: &Seq<Gate>,
    place: usize,
) -> Result<Seq<PinRef>, AllocError>
    ensures { IfOk result (λ list. list
        ≡ map (λ (g : GateRecord). GateIn (number_in n.now.numbers.now n.now.nets g.out - n.now.sources) place) gates.now) }
{
    let mut list = Seq::new(alloc);
    for k in 0..gates.len() {
        let gate = n.gate(gates.item(k).out);
        list.push(PinRef::GateIn(gate, place))?;
    }
    Ok(list)
}

/// The pins that read with the input pin at a place of a part.
fn loads(
    alloc: Global,
    n: &Numbering,
    reg: usize,
    part: &Part,
    place: usize,
) -> Result<Seq<PinRef>, AllocError>
    ensures { IfOk result (λ list. list ≡ spec_loads (number_in n.now.numbers.now n.now.nets) n.now.sources reg part.now place) }
{
    match part {
        Part::Comb { gates, .. } => gate_loads(alloc, n, gates, place),
        Part::Flop { .. } => Seq::one(alloc, PinRef::RegIn(reg, place)),
        Part::Gate { out, .. } => Seq::one(alloc, PinRef::GateIn(n.gate(*out), place)),
    }
}

/// Appends the input pins of a cell.
fn push_inputs(
    alloc: Global,
    list: &mut Seq<PinName>,
    n: &Numbering,
    reg: usize,
    part: &Part,
    names: &Seq<Name>,
) -> Result<(), AllocError>
    ensures { OnOk result (list.new
        ≡ list.old ++ input_roles (number_in n.now.numbers.now n.now.nets) n.now.sources reg part.now 0 names.now) }
{
    for place in 0..names.len() {
        let name = names.item(place).copy(alloc)?;
        let pins = loads(alloc, n, reg, part, place)?;
        let role = PinRole::Load(pins);
        list.push(PinName { name, role })?;
    }
    Ok(())
}

/// Appends a clock pin.
fn push_clock(alloc: Global, list: &mut Seq<PinName>, pin: &Name) -> Result<(), AllocError>
    ensures { OnOk result (list.new ≡ list.old ++ clock_role pin.now ∷ []) }
{
    let name = pin.copy(alloc)?;
    list.push(PinName {
        name,
        role: PinRole::Clock,
    })?;
    Ok(())
}

/// Appends clock pins.
fn push_clocks(alloc: Global, list: &mut Seq<PinName>, pins: &Seq<Name>) -> Result<(), AllocError>
    ensures { OnOk result (list.new ≡ list.old ++ map clock_role pins.now) }
{
    for k in 0..pins.len() {
        push_clock(alloc, list, pins.item(k))?;
    }
    Ok(())
}

/// Appends the pins that stand on the clock tree: of a flop its clock pin, of a clock gate its output too.
fn push_tree(alloc: Global, list: &mut Seq<PinName>, kind: &CellKind) -> Result<(), AllocError>
    ensures { OnOk result (list.new ≡ list.old ++ map clock_role (spec_tree kind.now)) }
{
    match kind {
        CellKind::Comb(_) => Ok(()),
        CellKind::Flop(flop) => push_clock(alloc, list, &flop.clock),
        CellKind::Gate(gate) => {
            push_clock(alloc, list, &gate.clock)?;
            push_clock(alloc, list, &gate.out)
        }
        CellKind::Other(_) => Ok(()),
    }
}

/// Appends the output pins of these names, each with the number of its net, as far as there are both.
fn push_drives(
    alloc: Global,
    list: &mut Seq<PinName>,
    names: &Seq<Name>,
    nets: &Seq<usize>,
) -> Result<(), AllocError>
    ensures { OnOk result (list.new ≡ list.old ++ map drive_role (zip names.now nets.now)) }
{
    for k in 0..names.len().min(nets.len()) {
        let name = names.item(k).copy(alloc)?;
        list.push(PinName {
            name,
            role: PinRole::Drive(nets.at(k)),
        })?;
    }
    Ok(())
}

/// The pins of a cell of the clock tree: all are clock pins.
fn tree_pins(alloc: Global, cell: &Cell) -> Result<Seq<PinName>, AllocError>
    ensures { IfOk result (λ list. list ≡ map clock_role (cell.now.inputs ++ out_pins cell.now.kind)) }
{
    let outs = out_names(alloc, &cell.kind)?;
    let mut list = Seq::new(alloc);
    push_clocks(alloc, &mut list, &cell.inputs)?;
    push_clocks(alloc, &mut list, &outs)?;
    Ok(list)
}

/// The pins of any other cell.
fn data_pins(
    alloc: Global,
    n: &Numbering,
    reg: usize,
    part: &Part,
    cell: &Cell,
) -> Result<Seq<PinName>, AllocError>
    ensures { IfOk result (λ list. list ≡ data_roles (number_in n.now.numbers.now n.now.nets) n.now.sources reg part.now cell.now) }
{
    let outs = out_names(alloc, &cell.kind)?;
    let nets = drive_numbers(alloc, n, part)?;
    let mut list = Seq::new(alloc);
    push_inputs(alloc, &mut list, n, reg, part, &cell.inputs)?;
    push_tree(alloc, &mut list, &cell.kind)?;
    push_drives(alloc, &mut list, &outs, &nets)?;
    Ok(list)
}

/// The pins of a cell.
fn pin_names(
    alloc: Global,
    n: &Numbering,
    reg: usize,
    part: &Part,
    cell: &Cell,
) -> Result<Seq<PinName>, AllocError>
    ensures { IfOk result (λ list. list
        ≡ spec_pins (number_in n.now.numbers.now n.now.nets) n.now.sources n.now.tree.now reg part.now cell.now) }
{
    if n.is_on_tree(part) {
        return tree_pins(alloc, cell);
    }
    data_pins(alloc, n, reg, part, cell)
}

/// The cell at a place of a library; a primitive has no place.
fn cell_at<'a>(library: &'a Library, place: Option<usize>) -> Option<&'a Cell>
    ensures { option_copied result ≡ spec_cell library.now place }
{
    match place {
        Some(place) => library.cells.as_slice().get(place),
        None => None,
    }
}

/// The pins of the cell at a place of a library; a primitive has none.
pub(crate) fn leaf_pins(
    alloc: Global,
    library: &Library,
    n: &Numbering,
    reg: usize,
    part: &Part,
    place: Option<usize>,
) -> Result<Seq<PinName>, AllocError>
    ensures { IfOk result (λ list. list
        ≡ pins_if_any (number_in n.now.numbers.now n.now.nets) n.now.sources n.now.tree.now reg part.now (spec_cell library.now place)) }
{
    match cell_at(library, place) {
        Some(cell) => pin_names(alloc, n, reg, part, cell),
        None => Ok(Seq::new(alloc)),
    }
}
