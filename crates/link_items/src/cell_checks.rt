//! Refusals of an instance of a cell that is modelled.
ghost use Rattle.std.specs.Prelude.{◌≡◌, [], ◌∷◌, All, Contains, true, false, map, IfErr, OnOk, IfSome, IfNone};
ghost use Rattle.texts.specs.Names.{is_among};
ghost use Rattle.cell_types.specs.declared.libraries.CombOut.{CombOut as CombRecord};
ghost use Rattle.cell_types.specs.declared.libraries.FlopOut.{FlopOut as FlopRecord};
ghost use Rattle.link_defs.specs.CellNames as spec;
ghost use Rattle.link_defs.specs.Faults.{all_pins, most_pins as most};
ghost use Rattle.link_items.specs.Faults.{IsPinFault};
ghost use Rattle.link_items.specs.Fine.{IsFineCell};
ghost use Rattle.link_items.specs.Pins.{is_open, is_tied, is_unknown};

use crate::conns::{is_open, is_tied};
use crate::names::pin_name;
use cell_types::{Cell, CellKind, CombOut, FlopOut};
use linked_types::LinkFault;
use net_model::MOST_PINS;
use netlist_types::Conn;
use sdcv_base::{LimitName, Name, Seq};
use std::alloc::Global;

/// Whether the pin is one of these.
fn is_listed(pins: &[Name], pin: &Name) -> bool
    ensures { result ≡ is_among pin.now pins.now }
{
    pins.iter().any(|one| *pin == *one)
}

/// Whether it is the clock pin of a flop or a clock gate.
fn is_clock_pin(kind: &CellKind, pin: &Name) -> bool
    ensures { result ≡ is_among pin.now (spec.clock_pins kind.now) }
{
    match kind {
        CellKind::Comb(_) => false,
        CellKind::Flop(flop) => *pin == flop.clock,
        CellKind::Gate(gate) => *pin == gate.clock,
        CellKind::Other(_) => false,
    }
}

/// Whether it is one of these outputs.
fn is_comb_out(outs: &[CombOut], pin: &Name) -> bool
    ensures { result ≡ is_among pin.now (map (λ (o : CombRecord). o.name) outs.now) }
{
    outs.iter().any(|out| *pin == out.name)
}

/// Whether it is one of these outputs of a flop.
fn is_flop_out(outs: &[FlopOut], pin: &Name) -> bool
    ensures { result ≡ is_among pin.now (map (λ (o : FlopRecord). o.name) outs.now) }
{
    outs.iter().any(|out| *pin == out.name)
}

/// Whether it is an output pin.
fn is_out_pin(kind: &CellKind, pin: &Name) -> bool
    ensures { result ≡ is_among pin.now (spec.out_pins kind.now) }
{
    match kind {
        CellKind::Comb(outs) => is_comb_out(outs.as_slice(), pin),
        CellKind::Flop(flop) => is_flop_out(flop.outs.as_slice(), pin),
        CellKind::Gate(gate) => *pin == gate.out,
        CellKind::Other(_) => false,
    }
}

/// Whether a cell has a pin of that name.
fn has_pin(cell: &Cell, pin: &Name) -> bool
    ensures { result ≡ is_among pin.now (all_pins cell.now) }
{
    is_listed(cell.inputs.as_slice(), pin)
        || is_clock_pin(&cell.kind, pin)
        || is_out_pin(&cell.kind, pin)
        || is_listed(cell.power.as_slice(), pin)
}

/// The first connection to a pin that the cell does not have, if any.
fn unknown_conn<'a>(conns: &'a [Conn], cell: &Cell) -> Option<&'a Conn>
    ensures some { IfSome result (λ conn. Contains conns.now conn.now × (is_unknown (all_pins cell.now) conn.now ≡ true)) }
    ensures none { IfNone result (All (λ conn. is_unknown (all_pins cell.now) conn ≡ false) conns.now) }
{
    conns.iter().find(|conn| !has_pin(cell, &conn.pin))
}

/// Refuses a connection to a pin that the cell does not have.
fn check_known(alloc: Global, full: &Name, conns: &[Conn], cell: &Cell) -> Result<(), LinkFault>
    ensures ok { OnOk result (All (λ conn. is_unknown (all_pins cell.now) conn ≡ false) conns.now) }
    ensures err { IfErr result (IsPinFault cell.now full.now conns.now) }
{
    match unknown_conn(conns, cell) {
        Some(conn) => {
            let name = pin_name(alloc, full, &conn.pin)?;
            Err(LinkFault::UnknownPin(name))
        }
        None => Ok(()),
    }
}

/// The first of these pins that nothing is connected to, if any.
fn open_pin<'a>(conns: &[Conn], pins: &'a [Name]) -> Option<&'a Name>
    ensures some { IfSome result (λ pin. Contains pins.now pin.now × (is_open conns.now pin.now ≡ true)) }
    ensures none { IfNone result (All (λ pin. is_open conns.now pin ≡ false) pins.now) }
{
    pins.iter().find(|pin| is_open(conns, pin))
}

/// Refuses an input pin that nothing is connected to.
fn check_inputs(alloc: Global, full: &Name, conns: &[Conn], cell: &Cell) -> Result<(), LinkFault>
    ensures ok { OnOk result (All (λ pin. is_open conns.now pin ≡ false) cell.now.inputs) }
    ensures err { IfErr result (IsPinFault cell.now full.now conns.now) }
{
    match open_pin(conns, cell.inputs.as_slice()) {
        Some(pin) => {
            let name = pin_name(alloc, full, pin)?;
            Err(LinkFault::OpenInput(name))
        }
        None => Ok(()),
    }
}

/// The clock pin of a flop or a clock gate.
fn clock_pin(kind: &CellKind) -> Option<&Name>
    ensures some { IfSome result (λ pin. spec.clock_pins kind.now ≡ pin.now ∷ []) }
    ensures none { IfNone result (spec.clock_pins kind.now ≡ []) }
{
    match kind {
        CellKind::Flop(flop) => Some(&flop.clock),
        CellKind::Gate(gate) => Some(&gate.clock),
        CellKind::Comb(_) => None,
        CellKind::Other(_) => None,
    }
}

/// Refuses a flop or a clock gate whose clock pin nothing is connected to.
fn check_clock_pin(alloc: Global, full: &Name, conns: &[Conn], cell: &Cell) -> Result<(), LinkFault>
    ensures ok { OnOk result (All (λ pin. is_open conns.now pin ≡ false) (spec.clock_pins cell.now.kind)) }
    ensures err { IfErr result (IsPinFault cell.now full.now conns.now) }
{
    match clock_pin(&cell.kind) {
        Some(pin) => {
            if is_open(conns, pin) {
                let name = pin_name(alloc, full, pin)?;
                return Err(LinkFault::OpenInput(name));
            }
            Ok(())
        }
        None => Ok(()),
    }
}

/// The output of a combinational cell that a constant is connected to, if any.
fn tied_comb_out<'a>(conns: &[Conn], outs: &'a Seq<CombOut>) -> Option<&'a CombOut>
    ensures some { IfSome result (λ out. Contains outs.now out.now × (is_tied conns.now out.now.name ≡ true)) }
    ensures none { IfNone result (All (λ (o : CombRecord). is_tied conns.now o.name ≡ false) outs.now) }
{
    outs.as_slice().iter().find(|out| is_tied(conns, &out.name))
}

/// The output of a flop that a constant is connected to, if any.
fn tied_flop_out<'a>(conns: &[Conn], outs: &'a Seq<FlopOut>) -> Option<&'a FlopOut>
    ensures some { IfSome result (λ out. Contains outs.now out.now × (is_tied conns.now out.now.name ≡ true)) }
    ensures none { IfNone result (All (λ (o : FlopRecord). is_tied conns.now o.name ≡ false) outs.now) }
{
    outs.as_slice().iter().find(|out| is_tied(conns, &out.name))
}

/// The output pin that a constant is connected to, if any.
fn tied_out<'a>(conns: &[Conn], kind: &'a CellKind) -> Option<&'a Name>
    ensures some { IfSome result (λ pin. Contains (spec.out_pins kind.now) pin.now × (is_tied conns.now pin.now ≡ true)) }
    ensures none { IfNone result (All (λ pin. is_tied conns.now pin ≡ false) (spec.out_pins kind.now)) }
{
    match kind {
        CellKind::Comb(outs) => match tied_comb_out(conns, outs) {
            Some(out) => Some(&out.name),
            None => None,
        },
        CellKind::Flop(flop) => match tied_flop_out(conns, &flop.outs) {
            Some(out) => Some(&out.name),
            None => None,
        },
        CellKind::Gate(gate) => {
            if is_tied(conns, &gate.out) {
                return Some(&gate.out);
            }
            None
        }
        CellKind::Other(_) => None,
    }
}

/// Refuses an output pin that a constant is connected to.
fn check_outputs(alloc: Global, full: &Name, conns: &[Conn], cell: &Cell) -> Result<(), LinkFault>
    ensures ok { OnOk result (All (λ pin. is_tied conns.now pin ≡ false) (spec.out_pins cell.now.kind)) }
    ensures err { IfErr result (IsPinFault cell.now full.now conns.now) }
{
    match tied_out(conns, &cell.kind) {
        Some(pin) => {
            let name = pin_name(alloc, full, pin)?;
            Err(LinkFault::ManyDrivers(name))
        }
        None => Ok(()),
    }
}

/// The most input pins of a cell of this kind.
fn most_pins(kind: &CellKind) -> usize
    ensures { result ≡ most kind.now }
{
    match kind {
        CellKind::Comb(_) => MOST_PINS,
        CellKind::Flop(_) => MOST_PINS,
        CellKind::Gate(_) => MOST_PINS - 1,
        CellKind::Other(_) => MOST_PINS,
    }
}

/// Refuses an instance of a modelled cell for its pins.
pub(crate) fn check_cell(
    alloc: Global,
    full: &Name,
    conns: &[Conn],
    cell: &Cell,
) -> Result<(), LinkFault>
    ensures ok { OnOk result (IsFineCell conns.now cell.now) }
    ensures err { IfErr result (IsPinFault cell.now full.now conns.now) }
{
    let most = most_pins(&cell.kind);
    if cell.inputs.len() > most {
        return Err(LinkFault::Limit(LimitName::Pins, most as u64 + 1));
    }
    check_known(alloc, full, conns, cell)?;
    check_inputs(alloc, full, conns, cell)?;
    check_clock_pin(alloc, full, conns, cell)?;
    check_outputs(alloc, full, conns, cell)?;
    Ok(())
}
