//! Constants that pins and ports are connected to: each is a gate on a net of its own.
ghost use Rattle.std.specs.Prelude.{◌≡◌, ◌≤◌, ◌<◌, ◌+◌, ◌^◌, ◌++◌, ◌∷◌, [], All, length, IfOk, OnOk};
ghost use Rattle.netlist_types.specs.Lawful.{HasWidths};
ghost use Rattle.link_defs.specs.Hierarchy.{wires_of as wires};
ghost use Rattle.link_defs.specs.Parts as spec;

use crate::conns::{wire_at, wires_of};
use link_defs::Part;
use net_model::{Func, Gate};
use netlist_types::{Conn, Wire};
use sdcv_base::{Name, Seq};
use std::alloc::{AllocError, Global};

/// A constant on a net.
fn constant(alloc: Global, bit: bool, net: usize) -> Result<Part, AllocError>
    ensures { IfOk result (λ part. part ≡ spec.constant bit net) }
{
    let func = if bit { Func::one() } else { Func::zero() };
    let ins = Seq::new(alloc);
    let gate = Gate {
        func,
        ins,
        out: net,
    };
    Ok(Part::Comb {
        buffer: false,
        ins: Seq::new(alloc),
        gates: Seq::one(alloc, gate)?,
    })
}

/// Appends the constant that a wire is, if it is one.
pub(crate) fn push_tie(
    alloc: Global,
    parts: &mut Seq<Part>,
    own: usize,
    wire: Wire,
) -> Result<(), AllocError>
    ensures { OnOk result (parts.new ≡ parts.old ++ spec.ties own (wire ∷ [])) }
{
    match wire {
        Wire::Const(bit) => {
            parts.push(constant(alloc, bit, own)?)?;
            Ok(())
        }
        Wire::Net(_) => Ok(()),
    }
}

/// Appends the constants among wires, whose own nets are those from a first one on.
pub(crate) fn push_ties(
    alloc: Global,
    parts: &mut Seq<Part>,
    own: usize,
    wires: &[Wire],
) -> Result<(), AllocError>
    requires { own + length wires.now < 2 ^ 64 }
    ensures { OnOk result (parts.new ≡ parts.old ++ spec.ties own wires.now) }
{
    for k in 0..wires.len() {
        let wire = wire_at(wires, k);
        push_tie(alloc, parts, own + k, wire)?;
    }
    Ok(())
}

/// Appends the constants that input pins are connected to, whose own nets are those from a first one on.
pub(crate) fn push_pin_ties(
    alloc: Global,
    parts: &mut Seq<Part>,
    conns: &[Conn],
    own: usize,
    pins: &Seq<Name>,
) -> Result<(), AllocError>
    requires narrow { HasWidths None conns.now }
    requires room { own + length pins.now < 2 ^ 64 }
    ensures { OnOk result (parts.new ≡ parts.old ++ spec.pin_ties conns.now own pins.now) }
{
    for k in 0..pins.len() {
        push_pin_tie(alloc, parts, conns, own + k, pins.item(k))?;
    }
    Ok(())
}

/// Appends the constant that a pin is connected to, if it is.
pub(crate) fn push_pin_tie(
    alloc: Global,
    parts: &mut Seq<Part>,
    conns: &[Conn],
    own: usize,
    pin: &Name,
) -> Result<(), AllocError>
    requires narrow { HasWidths None conns.now }
    requires room { own + 1 < 2 ^ 64 }
    ensures { OnOk result (parts.new ≡ parts.old ++ spec.ties own (wires conns.now pin.now)) }
{
    push_ties(alloc, parts, own, wires_of(conns, pin))
}

/// Appends the constants that the bits of a port are connected to, on the nets of these bits from a first one on.
pub(crate) fn push_bit_ties(
    alloc: Global,
    parts: &mut Seq<Part>,
    first: usize,
    bits: &Seq<usize>,
    wires: &[Wire],
) -> Result<(), AllocError>
    requires width { length wires.now ≤ length bits.now }
    requires room { All (λ bit. first + bit < 2 ^ 64) bits.now }
    ensures { OnOk result (parts.new ≡ parts.old ++ spec.bit_ties first bits.now wires.now) }
{
    for k in 0..wires.len() {
        let bit = bits.at(k);
        let wire = wire_at(wires, k);
        push_tie(alloc, parts, first + bit, wire)?;
    }
    Ok(())
}
