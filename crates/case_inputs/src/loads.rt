//! Gates, registers and output ports that read assumed nets.
ghost use Rattle.std.specs.Prelude.{◌≡◌, ℕ, IfOk};
ghost use Rattle.case_inputs.specs.Ties.{AreTies};
ghost use Rattle.case_inputs.specs.Assumed.{owner_pin, read_nets, assumed_gate, assumed_gates, assumed_reg, assumed_regs};

use crate::ties::Ties;
use net_model::{Func, Gate, PinRef, Reg};
use sdcv_base::Seq;
use std::alloc::{AllocError, Global};

/// Whose load pins are meant: those of a gate or a register, by its number, or the output ports.
#[derive(Clone, Copy, Debug, PartialEq, Eq)]
pub enum Owner {
    Gate(usize),
    Reg(usize),
    Ports,
}

/// The load pin of this place.
fn owner_pin(owner: Owner, place: usize) -> PinRef
    ensures { result ≡ owner_pin owner place }
{
    match owner {
        Owner::Gate(gate) => PinRef::GateIn(gate, place),
        Owner::Reg(reg) => PinRef::RegIn(reg, place),
        Owner::Ports => PinRef::OutPort(place),
    }
}

/// The nets that the owner's load pins read under the assumptions, where these are their own nets.
pub(crate) fn read_nets(
    alloc: Global,
    ties: &Ties,
    owner: Owner,
    nets: &Seq<usize>,
) -> Result<Seq<usize>, AllocError>
    requires { AreTies ties.now }
    ensures { IfOk result (λ list. list ≡ read_nets ties.now.nets ties.now.sets (owner_pin owner) nets.now) }
{
    let mut list = Seq::new(alloc);
    for place in 0..nets.len() {
        list.push(ties.read_net(owner_pin(owner, place), nets.at(place)))?;
    }
    Ok(list)
}

/// The gate of this number under the assumptions.
fn assumed_gate(alloc: Global, ties: &Ties, k: usize, gate: &Gate) -> Result<Gate, AllocError>
    requires { AreTies ties.now }
    ensures { IfOk result (λ made. made ≡ assumed_gate ties.now.nets ties.now.sets k gate.now) }
{
    let func = gate.func.copy(alloc)?;
    let ins = read_nets(alloc, ties, Owner::Gate(k), &gate.ins)?;
    Ok(Gate {
        func,
        ins,
        out: gate.out,
    })
}

/// The gates under the assumptions.
pub(crate) fn assumed_gates(
    alloc: Global,
    ties: &Ties,
    gates: &Seq<Gate>,
) -> Result<Seq<Gate>, AllocError>
    requires { AreTies ties.now }
    ensures { IfOk result (λ list. list ≡ assumed_gates ties.now.nets ties.now.sets gates.now) }
{
    let mut list = Seq::new(alloc);
    for k in 0..gates.len() {
        list.push(assumed_gate(alloc, ties, k, gates.item(k))?)?;
    }
    Ok(list)
}

/// An equal control, if there is one.
fn copy_if_any(alloc: Global, control: &Option<Func>) -> Result<Option<Func>, AllocError>
    ensures { IfOk result (λ f. f ≡ control.now) }
{
    match control {
        None => Ok(None),
        Some(func) => Ok(Some(func.copy(alloc)?)),
    }
}

/// The register of this number under the assumptions.
fn assumed_reg(alloc: Global, ties: &Ties, r: usize, reg: &Reg) -> Result<Reg, AllocError>
    requires { AreTies ties.now }
    ensures { IfOk result (λ made. made ≡ assumed_reg ties.now.nets ties.now.sets r reg.now) }
{
    Ok(Reg {
        next: reg.next.copy(alloc)?,
        clear: copy_if_any(alloc, &reg.clear)?,
        preset: copy_if_any(alloc, &reg.preset)?,
        both: reg.both,
        ins: read_nets(alloc, ties, Owner::Reg(r), &reg.ins)?,
        outs: reg.outs.copy(alloc)?,
    })
}

/// The registers under the assumptions.
pub(crate) fn assumed_regs(
    alloc: Global,
    ties: &Ties,
    regs: &Seq<Reg>,
) -> Result<Seq<Reg>, AllocError>
    requires { AreTies ties.now }
    ensures { IfOk result (λ list. list ≡ assumed_regs ties.now.nets ties.now.sets regs.now) }
{
    let mut list = Seq::new(alloc);
    for r in 0..regs.len() {
        list.push(assumed_reg(alloc, ties, r, regs.item(r))?)?;
    }
    Ok(list)
}
