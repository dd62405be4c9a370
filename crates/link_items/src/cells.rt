//! Instances of cells: gates, registers, clock gates, and the constants that their pins are connected to.
ghost use Rattle.std.specs.Prelude.{◌≡◌, ◌≤◌, ◌<◌, ◌+◌, ◌^◌, ◌++◌, All, length, IfOk, OnOk, None};
ghost use Rattle.std.specs.List.{list_all};
ghost use Rattle.net_model.specs.Form.{IsOver};
ghost use Rattle.netlist_types.specs.declared.sources.Conn.{Conn as ConnRecord};
ghost use Rattle.netlist_types.specs.Lawful.{AreWiresBelow, HasWidths};
ghost use Rattle.cell_types.specs.declared.libraries.CombOut.{CombOut as OutRecord};
ghost use Rattle.cell_types.specs.Libraries.{IsLawfulCell};
ghost use Rattle.link_defs.specs.Flatten.{other_pins};
ghost use Rattle.link_defs.specs.Parts as spec;
ghost use Rattle.link_items.specs.Cells.{comb_part, flop_part, flop_ties, gate_part, gate_ties};

use crate::nets::{pin_net, pin_nets};
use crate::ties::{push_pin_tie, push_pin_ties};
use cell_types::{Cell, CellKind, CombOut, Flop, FlopOut, GateCell};
use link_defs::Part;
use net_model::{Args, Func, Gate, Reg, RegOut, Value};
use netlist_types::Conn;
use sdcv_base::Seq;
use std::alloc::{AllocError, Global};

/// Whether a function of one place tells its two values apart.
fn is_buffer_func(func: &Func) -> bool
    requires { IsOver 1 func.now }
    ensures { result ≡ spec.is_buffer_form func.now }
{
    bool::apply(func, &Args::of(true)) ^ bool::apply(func, &Args::of(false))
}

/// Whether each of these outputs has the value of the one place or its complement.
fn are_buffers(outs: &Seq<CombOut>) -> bool
    requires { All (λ (o : OutRecord). IsOver 1 o.func) outs.now }
    ensures { result ≡ list_all (λ (o : OutRecord). spec.is_buffer_form o.func) outs.now }
{
    for k in 0..outs.len() {
        if !is_buffer_func(&outs.item(k).func) {
            return false;
        }
    }
    true
}

/// Whether a combinational cell is a buffer or an inverter.
fn is_buffer(cell: &Cell, outs: &Seq<CombOut>) -> bool
    requires { All (λ (o : OutRecord). IsOver (length cell.now.inputs) o.func) outs.now }
    ensures { result ≡ spec.is_buffer_cell cell.now.inputs outs.now }
{
    cell.inputs.len() == 1 && are_buffers(outs)
}

/// A gate for each output of a combinational cell, whose own nets are those from a first one on.
fn comb_gates(
    alloc: Global,
    nets: &Seq<usize>,
    conns: &[Conn],
    ins: &Seq<usize>,
    own: usize,
    outs: &Seq<CombOut>,
) -> Result<Seq<Gate>, AllocError>
    requires below { All (λ (c : ConnRecord). AreWiresBelow (length nets.now) c.wires) conns.now }
    requires room { own + length outs.now < 2 ^ 64 }
    ensures { IfOk result (λ gates. gates ≡ spec.comb_gates nets.now conns.now ins.now own outs.now) }
{
    let mut gates = Seq::from_vec(Vec::with_capacity(alloc, outs.len())?);
    for k in 0..outs.len() {
        let output = outs.item(k);
        let out = pin_net(nets, conns, own + k, &output.name);
        gates.push(gate_of(alloc, &output.func, ins, out)?)?;
    }
    Ok(gates)
}

/// A gate of copies of these.
fn gate_of(alloc: Global, func: &Func, ins: &Seq<usize>, out: usize) -> Result<Gate, AllocError>
    ensures { IfOk result (λ gate. gate ≡ record { func = func.now; ins = ins.now; out = out }) }
{
    let func = func.copy(alloc)?;
    let ins = ins.copy(alloc)?;
    Ok(Gate { func, ins, out })
}

/// The outputs of a register, whose own nets are those from a first one on.
fn reg_outs(
    alloc: Global,
    nets: &Seq<usize>,
    conns: &[Conn],
    own: usize,
    outs: &Seq<FlopOut>,
) -> Result<Seq<RegOut>, AllocError>
    requires below { All (λ (c : ConnRecord). AreWiresBelow (length nets.now) c.wires) conns.now }
    requires room { own + length outs.now < 2 ^ 64 }
    ensures { IfOk result (λ list. list ≡ spec.reg_outs nets.now conns.now own outs.now) }
{
    let mut list = Seq::from_vec(Vec::with_capacity(alloc, outs.len())?);
    for k in 0..outs.len() {
        let output = outs.item(k);
        let net = pin_net(nets, conns, own + k, &output.name);
        list.push(RegOut {
            net,
            inverted: output.inverted,
        })?;
    }
    Ok(list)
}

/// An equal function, where there is one.
fn copy_if_any(alloc: Global, func: &Option<Func>) -> Result<Option<Func>, AllocError>
    ensures { IfOk result (λ copied. copied ≡ func.now) }
{
    match func {
        Some(func) => Ok(Some(func.copy(alloc)?)),
        None => Ok(None),
    }
}

/// The register that a flop is.
fn flop_reg(
    alloc: Global,
    nets: &Seq<usize>,
    conns: &[Conn],
    first: usize,
    cell: &Cell,
    flop: &Flop,
) -> Result<Reg, AllocError>
    requires below { All (λ (c : ConnRecord). AreWiresBelow (length nets.now) c.wires) conns.now }
    requires room { first + length cell.now.inputs + length flop.now.outs < 2 ^ 64 }
    ensures { IfOk result (λ reg. reg ≡ spec.flop_reg nets.now conns.now first cell.now flop.now) }
{
    let ins = pin_nets(alloc, nets, conns, first, &cell.inputs)?;
    let outs = reg_outs(alloc, nets, conns, first + cell.inputs.len(), &flop.outs)?;
    Ok(Reg {
        next: flop.next.copy(alloc)?,
        clear: copy_if_any(alloc, &flop.clear)?,
        preset: copy_if_any(alloc, &flop.preset)?,
        both: flop.both,
        ins,
        outs,
    })
}

/// The part of a combinational cell, whose own nets are those from a first one on.
fn comb_part(
    alloc: Global,
    nets: &Seq<usize>,
    conns: &[Conn],
    first: usize,
    cell: &Cell,
    outs: &Seq<CombOut>,
) -> Result<Part, AllocError>
    requires below { All (λ (c : ConnRecord). AreWiresBelow (length nets.now) c.wires) conns.now }
    requires room { first + length cell.now.inputs + length outs.now < 2 ^ 64 }
    requires funcs { All (λ (o : OutRecord). IsOver (length cell.now.inputs) o.func) outs.now }
    ensures { IfOk result (λ p. p ≡ comb_part nets.now conns.now first cell.now outs.now) }
{
    let ins = pin_nets(alloc, nets, conns, first, &cell.inputs)?;
    let own = first + cell.inputs.len();
    let gates = comb_gates(alloc, nets, conns, &ins, own, outs)?;
    Ok(Part::Comb {
        buffer: is_buffer(cell, outs),
        ins,
        gates,
    })
}

/// The part of a flop, whose own nets are those from a first one on.
fn flop_part(
    alloc: Global,
    nets: &Seq<usize>,
    conns: &[Conn],
    first: usize,
    cell: &Cell,
    flop: &Flop,
) -> Result<Part, AllocError>
    requires below { All (λ (c : ConnRecord). AreWiresBelow (length nets.now) c.wires) conns.now }
    requires room { first + length cell.now.inputs + length flop.now.outs < 2 ^ 64 }
    ensures { IfOk result (λ p. p ≡ flop_part nets.now conns.now first cell.now flop.now) }
{
    let own = first + cell.inputs.len() + flop.outs.len();
    let clock = pin_net(nets, conns, own, &flop.clock);
    let reg = flop_reg(alloc, nets, conns, first, cell, flop)?;
    Ok(Part::Flop { clock, reg })
}

/// The part of a clock gate, whose own nets are those from a first one on.
fn gate_part(
    alloc: Global,
    nets: &Seq<usize>,
    conns: &[Conn],
    first: usize,
    cell: &Cell,
    gate: &GateCell,
) -> Result<Part, AllocError>
    requires below { All (λ (c : ConnRecord). AreWiresBelow (length nets.now) c.wires) conns.now }
    requires room { first + length cell.now.inputs + 1 < 2 ^ 64 }
    ensures { IfOk result (λ p. p ≡ gate_part nets.now conns.now first cell.now gate.now) }
{
    let own = first + cell.inputs.len();
    let out = pin_net(nets, conns, own, &gate.out);
    let clock = pin_net(nets, conns, own + 1, &gate.clock);
    let enables = pin_nets(alloc, nets, conns, first, &cell.inputs)?;
    Ok(Part::Gate {
        clock,
        enables,
        out,
    })
}

/// Appends an instance of a modelled cell, its constants first.
pub(crate) fn push_cell(
    alloc: Global,
    nets: &Seq<usize>,
    conns: &[Conn],
    first: usize,
    cell: &Cell,
    parts: &mut Seq<Part>,
) -> Result<(), AllocError>
    requires below { All (λ (c : ConnRecord). AreWiresBelow (length nets.now) c.wires) conns.now }
    requires narrow { HasWidths None conns.now }
    requires room { first + (length cell.now.inputs + other_pins cell.now) < 2 ^ 64 }
    requires lawful { IsLawfulCell cell.now }
    ensures { OnOk result (parts.new ≡ parts.old ++ (spec.cell_ties conns.now first cell.now ++ spec.cell_part nets.now conns.now first cell.now)) }
{
    match &cell.kind {
        CellKind::Comb(outs) => {
            push_pin_ties(alloc, parts, conns, first, &cell.inputs)?;
            parts.push(comb_part(alloc, nets, conns, first, cell, outs)?)?;
            Ok(())
        }
        CellKind::Flop(flop) => {
            push_flop_ties(alloc, parts, conns, first, cell, flop)?;
            parts.push(flop_part(alloc, nets, conns, first, cell, flop)?)?;
            Ok(())
        }
        CellKind::Gate(gate) => {
            push_gate_ties(alloc, parts, conns, first, cell, gate)?;
            parts.push(gate_part(alloc, nets, conns, first, cell, gate)?)?;
            Ok(())
        }
        CellKind::Other(_) => Ok(()),
    }
}

/// Appends the constants that the input pins and the clock pin of a flop are connected to.
fn push_flop_ties(
    alloc: Global,
    parts: &mut Seq<Part>,
    conns: &[Conn],
    first: usize,
    cell: &Cell,
    flop: &Flop,
) -> Result<(), AllocError>
    requires narrow { HasWidths None conns.now }
    requires room { first + length cell.now.inputs + length flop.now.outs + 1 < 2 ^ 64 }
    ensures { OnOk result (parts.new ≡ parts.old ++ flop_ties conns.now first cell.now flop.now) }
{
    push_pin_ties(alloc, parts, conns, first, &cell.inputs)?;
    let own = first + cell.inputs.len() + flop.outs.len();
    push_pin_tie(alloc, parts, conns, own, &flop.clock)
}

/// Appends the constants that the enables and the clock pin of a clock gate are connected to.
fn push_gate_ties(
    alloc: Global,
    parts: &mut Seq<Part>,
    conns: &[Conn],
    first: usize,
    cell: &Cell,
    gate: &GateCell,
) -> Result<(), AllocError>
    requires narrow { HasWidths None conns.now }
    requires room { first + length cell.now.inputs + 2 < 2 ^ 64 }
    ensures { OnOk result (parts.new ≡ parts.old ++ gate_ties conns.now first cell.now gate.now) }
{
    push_pin_ties(alloc, parts, conns, first, &cell.inputs)?;
    let own = first + cell.inputs.len() + 1;
    push_pin_tie(alloc, parts, conns, own, &gate.clock)
}
