//! Gate primitives and assigned bits.
ghost use Rattle.std.specs.Prelude.{◌≡◌, ◌≤◌, ◌<◌, ◌+◌, ◌^◌, ◌++◌, ◌∷◌, [], All, length, map, slice_index, IfOk, OnOk};
ghost use Rattle.netlist_types.specs.Lawful.{IsBelow, IsWireBelow};
ghost use Rattle.link_defs.specs.Parts as spec;
ghost use Rattle.link_items.specs.Prims.{op_form, prim_part, copy_parts};

use crate::nets::{net_at, wire_net, wire_nets};
use crate::ties::{push_tie, push_ties};
use link_defs::Part;
use net_model::{Func, Gate};
use netlist_types::{PrimKind, Wire};
use sdcv_base::Seq;
use std::alloc::{AllocError, Global};

/// The terminals of a primitive.
#[derive(Clone, Copy)]
pub(crate) struct Terminals<'a> {
    pub(crate) outs: &'a Seq<usize>,
    pub(crate) ins: &'a Seq<Wire>,
}

/// An operator that a primitive folds its inputs by.
#[derive(Clone, Copy)]
pub(crate) enum Op {
    And,
    Or,
    Xor,
}

/// The function of two functions by an operator.
fn joined(alloc: Global, op: Op, f: Func, g: Func) -> Result<Func, AllocError>
    ensures { IfOk result (λ func. func ≡ op_form op f g) }
{
    match op {
        Op::And => Func::and(alloc, f, g),
        Op::Or => Func::or(alloc, f, g),
        Op::Xor => Func::xor(alloc, f, g),
    }
}

/// The first place, and with it each of so many further ones.
fn folded(alloc: Global, op: Op, more: usize) -> Result<Func, AllocError>
    ensures { IfOk result (λ func. func ≡ spec.folded (op_form op) more) }
{
    let mut func = Func::pin(0);
    for k in 0..more {
        func = joined(alloc, op, func, Func::pin(k + 1))?;
    }
    Ok(func)
}

/// The function of a primitive of so many inputs (IEEE 1364, gate primitives).
pub(crate) fn prim_func(alloc: Global, kind: PrimKind, inputs: usize) -> Result<Func, AllocError>
    requires { 1 ≤ inputs }
    ensures { IfOk result (λ func. func ≡ spec.prim_form kind inputs) }
{
    match kind {
        PrimKind::And => folded(alloc, Op::And, inputs - 1),
        PrimKind::Nand => Func::not(alloc, folded(alloc, Op::And, inputs - 1)?),
        PrimKind::Or => folded(alloc, Op::Or, inputs - 1),
        PrimKind::Nor => Func::not(alloc, folded(alloc, Op::Or, inputs - 1)?),
        PrimKind::Xor => folded(alloc, Op::Xor, inputs - 1),
        PrimKind::Xnor => Func::not(alloc, folded(alloc, Op::Xor, inputs - 1)?),
        PrimKind::Buf => Ok(Func::pin(0)),
        PrimKind::Not => Func::not(alloc, Func::pin(0)),
    }
}

/// Whether a primitive is a buffer or an inverter.
fn is_buffer_prim(kind: PrimKind) -> bool
    ensures { result ≡ spec.is_buffer_prim kind }
{
    match kind {
        PrimKind::And => false,
        PrimKind::Nand => false,
        PrimKind::Or => false,
        PrimKind::Nor => false,
        PrimKind::Xor => false,
        PrimKind::Xnor => false,
        PrimKind::Buf => true,
        PrimKind::Not => true,
    }
}

/// A gate of a primitive that reads these flat nets.
fn prim_gate(
    alloc: Global,
    kind: PrimKind,
    ins: &Seq<usize>,
    out: usize,
) -> Result<Gate, AllocError>
    requires { 1 ≤ length ins.now }
    ensures { IfOk result (λ gate. gate ≡ spec.prim_gate kind ins.now out) }
{
    let func = prim_func(alloc, kind, ins.len())?;
    let ins = ins.copy(alloc)?;
    Ok(Gate { func, ins, out })
}

/// A gate for each output terminal of a primitive.
fn prim_gates(
    alloc: Global,
    kind: PrimKind,
    nets: &Seq<usize>,
    ins: &Seq<usize>,
    outs: &Seq<usize>,
) -> Result<Seq<Gate>, AllocError>
    requires some { 1 ≤ length ins.now }
    requires outs { All (IsBelow (length nets.now)) outs.now }
    ensures { IfOk result (λ gates. gates ≡ map (λ out. spec.prim_gate kind ins.now (slice_index nets.now out)) outs.now) }
{
    let mut gates = Seq::from_vec(Vec::with_capacity(alloc, outs.len())?);
    for k in 0..outs.len() {
        let out = net_at(nets, outs.at(k));
        gates.push(prim_gate(alloc, kind, ins, out)?)?;
    }
    Ok(gates)
}

/// The part of a primitive without its constants.
fn prim_part(
    alloc: Global,
    kind: PrimKind,
    nets: &Seq<usize>,
    ins: Seq<usize>,
    outs: &Seq<usize>,
) -> Result<Part, AllocError>
    requires some { 1 ≤ length ins }
    requires outs { All (IsBelow (length nets.now)) outs.now }
    ensures { IfOk result (λ p. p ≡ prim_part kind nets.now ins outs.now) }
{
    let gates = prim_gates(alloc, kind, nets, &ins, outs)?;
    Ok(Part::Comb {
        buffer: is_buffer_prim(kind),
        ins,
        gates,
    })
}

/// Appends a primitive, its constants first.
pub(crate) fn push_prim(
    alloc: Global,
    kind: PrimKind,
    nets: &Seq<usize>,
    terminals: &Terminals,
    first: usize,
    parts: &mut Seq<Part>,
) -> Result<(), AllocError>
    requires some { 1 ≤ length terminals.now.ins.now }
    requires outs { All (IsBelow (length nets.now)) terminals.now.outs.now }
    requires ins { All (IsWireBelow (length nets.now)) terminals.now.ins.now }
    requires room { first + length terminals.now.ins.now < 2 ^ 64 }
    ensures { OnOk result (parts.new ≡ parts.old ++ (spec.ties first terminals.now.ins.now
        ++ prim_part kind nets.now (spec.wire_nets nets.now first terminals.now.ins.now) terminals.now.outs.now ∷ [])) }
{
    push_ties(alloc, parts, first, terminals.ins.as_slice())?;
    let ins = wire_nets(alloc, nets, first, terminals.ins)?;
    parts.push(prim_part(alloc, kind, nets, ins, terminals.outs)?)?;
    Ok(())
}

/// Appends an assigned bit, its constant first.
pub(crate) fn push_copy(
    alloc: Global,
    nets: &Seq<usize>,
    to: usize,
    from: Wire,
    first: usize,
    parts: &mut Seq<Part>,
) -> Result<(), AllocError>
    requires to { to < length nets.now }
    requires wire { IsWireBelow (length nets.now) from }
    requires room { first + 1 < 2 ^ 64 }
    ensures { OnOk result (parts.new ≡ parts.old ++ copy_parts nets.now first to from) }
{
    push_tie(alloc, parts, first, from)?;
    let ins = Seq::one(alloc, wire_net(nets, first, from))?;
    let gate = prim_gate(alloc, PrimKind::Buf, &ins, net_at(nets, to))?;
    parts.push(Part::Comb {
        buffer: true,
        ins,
        gates: Seq::one(alloc, gate)?,
    })?;
    Ok(())
}
