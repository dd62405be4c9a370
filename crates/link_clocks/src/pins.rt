//! The pins of a register or a clock gate, each with its net.
ghost use Rattle.std.specs.Prelude.{◌≡◌, ◌++◌, [], ◌∷◌, map, IfOk, OnOk};
ghost use Rattle.cell_types.specs.declared.libraries.CombOut.{CombOut as CombRecord};
ghost use Rattle.cell_types.specs.declared.libraries.FlopOut.{FlopOut as FlopRecord};
ghost use Rattle.net_model.specs.Netlist.{reg_nets};
ghost use Rattle.link_defs.specs.declared.cuts.Way.TheVariants as way;
ghost use Rattle.link_defs.specs.CellNames.{clock_pins, out_pins};
ghost use Rattle.link_defs.specs.Judged.{off_pins, pins_at};

use cell_types::{Cell, CellKind, CombOut, FlopOut};
use link_defs::{CutPin, Part, Way};
use net_model::Reg;
use sdcv_base::{Name, Seq};
use std::alloc::{AllocError, Global};

/// The pins of a register or a clock gate: what it reads, its clock, and what it drives.
pub(crate) fn off_pins(alloc: Global, cell: &Cell, part: &Part) -> Result<Seq<CutPin>, AllocError>
    ensures { IfOk result (λ pins. pins ≡ off_pins cell.now part.now) }
{
    let mut pins = Seq::new(alloc);
    match part {
        Part::Comb { .. } => {}
        Part::Flop { clock, reg } => {
            let outs = reg_nets(alloc, reg)?;
            push_all(alloc, &mut pins, cell, *clock, &reg.ins, &outs)?;
        }
        Part::Gate {
            clock,
            enables,
            out,
        } => {
            let outs = Seq::one(alloc, *out)?;
            push_all(alloc, &mut pins, cell, *clock, enables, &outs)?;
        }
    }
    Ok(pins)
}

/// Appends the pins of a cell with their nets.
fn push_all(
    alloc: Global,
    pins: &mut Seq<CutPin>,
    cell: &Cell,
    clock: usize,
    ins: &Seq<usize>,
    outs: &Seq<usize>,
) -> Result<(), AllocError>
    ensures { OnOk result (pins.new ≡ pins.old ++ (pins_at way.In cell.now.inputs ins.now ++ pins_at way.In (clock_pins cell.now.kind) (clock ∷ [])
        ++ pins_at way.Out (out_pins cell.now.kind) outs.now)) }
{
    let clocks = clock_names(alloc, &cell.kind)?;
    let names = out_names(alloc, &cell.kind)?;
    let on = Seq::one(alloc, clock)?;
    push_pins(alloc, pins, Way::In, &cell.inputs, ins)?;
    push_pins(alloc, pins, Way::In, &clocks, &on)?;
    push_pins(alloc, pins, Way::Out, &names, outs)?;
    Ok(())
}

/// Appends pins of one way, as many as there are names and nets.
fn push_pins(
    alloc: Global,
    pins: &mut Seq<CutPin>,
    way: Way,
    names: &Seq<Name>,
    nets: &Seq<usize>,
) -> Result<(), AllocError>
    ensures { OnOk result (pins.new ≡ pins.old ++ pins_at way names.now nets.now) }
{
    for k in 0..names.len() {
        if k < nets.len() {
            let name = names.item(k).copy(alloc)?;
            let net = nets.at(k);
            pins.push(CutPin { name, way, net })?;
        }
    }
    Ok(())
}

/// The clock pin of a flop or a clock gate.
fn clock_names(alloc: Global, kind: &CellKind) -> Result<Seq<Name>, AllocError>
    ensures { IfOk result (λ names. names ≡ clock_pins kind.now) }
{
    let mut names = Seq::new(alloc);
    match kind {
        CellKind::Comb(_) => {}
        CellKind::Flop(flop) => names.push(flop.clock.copy(alloc)?)?,
        CellKind::Gate(gate) => names.push(gate.clock.copy(alloc)?)?,
        CellKind::Other(_) => {}
    }
    Ok(names)
}

/// The output pins of a cell that is modelled.
fn out_names(alloc: Global, kind: &CellKind) -> Result<Seq<Name>, AllocError>
    ensures { IfOk result (λ names. names ≡ out_pins kind.now) }
{
    match kind {
        CellKind::Comb(outs) => comb_names(alloc, outs.as_slice()),
        CellKind::Flop(flop) => flop_names(alloc, flop.outs.as_slice()),
        CellKind::Gate(gate) => Seq::one(alloc, gate.out.copy(alloc)?),
        CellKind::Other(_) => Ok(Seq::new(alloc)),
    }
}

fn comb_names(alloc: Global, outs: &[CombOut]) -> Result<Seq<Name>, AllocError>
    ensures { IfOk result (λ names. names ≡ map (λ (o : CombRecord). o.name) outs.now) }
{
    let mut names = Seq::new(alloc);
    for out in outs {
        names.push(out.name.copy(alloc)?)?;
    }
    Ok(names)
}

fn flop_names(alloc: Global, outs: &[FlopOut]) -> Result<Seq<Name>, AllocError>
    ensures { IfOk result (λ names. names ≡ map (λ (o : FlopRecord). o.name) outs.now) }
{
    let mut names = Seq::new(alloc);
    for out in outs {
        names.push(out.name.copy(alloc)?)?;
    }
    Ok(names)
}

/// The output nets of a register.
fn reg_nets(alloc: Global, reg: &Reg) -> Result<Seq<usize>, AllocError>
    ensures { IfOk result (λ nets. nets ≡ reg_nets reg.now) }
{
    let mut nets = Seq::new(alloc);
    for out in reg.outs.as_slice() {
        nets.push(out.net)?;
    }
    Ok(nets)
}
