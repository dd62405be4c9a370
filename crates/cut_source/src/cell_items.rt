//! Instances of cells, or of nothing that is known, that are cut out.
ghost use Rattle.std.specs.Prelude.{◌≡◌, ◌++◌, flat_map, find, IfOk, OnOk};
ghost use Rattle.std.specs.Option.{option_copied};
ghost use Rattle.link_defs.specs.Hierarchy.{wires_in as wires};
ghost use Rattle.cut_source.specs.Items as items;
ghost use Rattle.cut_source.specs.Pins as spec;

use crate::conns::{has_const, wire_at, wires_in};
use crate::ways::{is_out, way_of};
use cell_types::{Cell, CellKind, Keeps};
use link_defs::{CutFault, CutItem, CutPin, Way};
use netlist_types::{Conn, Module, Wire};
use sdcv_base::{Name, Seq};
use std::alloc::{AllocError, Global};

/// Appends the pin that a wire gives, if it is a net.
pub(crate) fn push_wire(
    alloc: Global,
    pins: &mut Seq<CutPin>,
    name: &Name,
    way: Way,
    wire: Wire,
) -> Result<(), AllocError>
    ensures { OnOk result (pins.new ≡ pins.old ++ spec.wire_pins name.now way wire) }
{
    match wire {
        Wire::Const(_) => Ok(()),
        Wire::Net(net) => {
            let name = name.copy(alloc)?;
            pins.push(CutPin { name, way, net })?;
            Ok(())
        }
    }
}

/// Appends the pins that wires give.
fn push_wires(
    alloc: Global,
    pins: &mut Seq<CutPin>,
    name: &Name,
    way: Way,
    wires: &[Wire],
) -> Result<(), AllocError>
    ensures { OnOk result (pins.new ≡ pins.old ++ flat_map (spec.wire_pins name.now way) wires.now) }
{
    for k in 0..wires.len() {
        let wire = wire_at(wires, k);
        push_wire(alloc, pins, name, way, wire)?;
    }
    Ok(())
}

/// Appends the pins of a connection.
fn push_conn(
    alloc: Global,
    pins: &mut Seq<CutPin>,
    cell: Option<&Cell>,
    conn: &Conn,
) -> Result<(), AllocError>
    ensures { OnOk result (pins.new ≡ pins.old ++ spec.conn_pins (option_copied cell.entry) conn.now) }
{
    match way_of(cell, &conn.pin) {
        Some(way) => push_wires(alloc, pins, &conn.pin, way, wires_in(conn)),
        None => Ok(()),
    }
}

/// The pins of an instance that is of no module.
fn cell_pins(
    alloc: Global,
    cell: Option<&Cell>,
    conns: &Seq<Conn>,
) -> Result<Seq<CutPin>, AllocError>
    ensures { IfOk result (λ pins. pins ≡ spec.cell_pins (option_copied cell.entry) conns.now) }
{
    let mut pins = Seq::new(alloc);
    for k in 0..conns.len() {
        push_conn(alloc, &mut pins, cell, conns.item(k))?;
    }
    Ok(pins)
}

/// Whether a constant is connected to an output.
fn is_tied_out(cell: Option<&Cell>, conn: &Conn) -> bool
    ensures { result ≡ spec.is_tied_out (option_copied cell.entry) conn.now }
{
    is_out(way_of(cell, &conn.pin)) && has_const(wires_in(conn))
}

/// The first connection of a constant to an output.
fn tied_conn<'a>(cell: Option<&Cell>, conns: &'a [Conn]) -> Option<&'a Conn>
    ensures { option_copied result ≡ find (spec.is_tied_out (option_copied cell.entry)) conns.now }
{
    conns.iter().find(|conn| is_tied_out(cell, conn))
}

/// Why such an instance can't be cut out, if it can't.
fn cell_fault(
    alloc: Global,
    cell: Option<&Cell>,
    conns: &Seq<Conn>,
) -> Result<Option<CutFault>, AllocError>
    ensures { IfOk result (λ fault. fault ≡ spec.cell_fault (option_copied cell.entry) conns.now) }
{
    match tied_conn(cell, conns.as_slice()) {
        Some(conn) => Ok(Some(CutFault::Tied(conn.pin.copy(alloc)?))),
        None => Ok(None),
    }
}

/// Whether bits are kept.
fn are_bits(keeps: Keeps) -> bool
    ensures { result ≡ items.are_bits keeps }
{
    match keeps {
        Keeps::Bits => true,
        Keeps::Nothing | Keeps::Memory => false,
    }
}

/// Whether such a cell captures on the clock where it stands on it.
fn captures(kind: &CellKind) -> bool
    ensures { result ≡ items.captures kind.now }
{
    match kind {
        CellKind::Comb(_) => true,
        CellKind::Flop(_) => true,
        CellKind::Gate(_) => true,
        CellKind::Other(other) => !are_bits(other.keeps),
    }
}

/// Whether an instance of this cell does, or of none.
fn captures_or_none(cell: Option<&Cell>) -> bool
    ensures { result ≡ items.captures_or_none (option_copied cell.entry) }
{
    match cell {
        Some(cell) => captures(&cell.kind),
        None => true,
    }
}

/// An instance of a cell, or of nothing that is known, that is cut out of a module.
pub(crate) fn cell_cut(
    alloc: Global,
    body: &Module,
    cell: Option<&Cell>,
    reference: &Name,
    name: &Name,
    conns: &Seq<Conn>,
) -> Result<CutItem, AllocError>
    ensures { IfOk result (λ x. x ≡ items.cell_cut body.now (option_copied cell.entry) reference.now name.now conns.now) }
{
    Ok(CutItem {
        module: body.name.copy(alloc)?,
        cell: reference.copy(alloc)?,
        name: name.copy(alloc)?,
        clocked: captures_or_none(cell),
        pins: cell_pins(alloc, cell, conns)?,
        fault: cell_fault(alloc, cell, conns)?,
    })
}
