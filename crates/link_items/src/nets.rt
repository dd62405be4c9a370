//! The flat nets of wires and pins.
ghost use Rattle.std.specs.Prelude.{◌≡◌, ◌<◌, ◌+◌, ◌^◌, All, length, slice_index, IfOk};
ghost use Rattle.netlist_types.specs.Lawful.{IsWireBelow, AreWiresBelow};
ghost use Rattle.netlist_types.specs.declared.sources.Conn.{Conn as ConnRecord};
ghost use Rattle.link_defs.specs.Hierarchy.{wires_of as wires};
ghost use Rattle.link_defs.specs.Parts as spec;

use crate::conns::wires_of;
use netlist_types::{Conn, Wire};
use sdcv_base::{Name, Seq};
use std::alloc::{AllocError, Global};

/// The flat net of a net.
pub(crate) fn net_at(nets: &Seq<usize>, net: usize) -> usize
    requires { net < length nets.now }
    ensures { result ≡ slice_index nets.now net }
{
    nets.at(net)
}

/// The flat net of a wire; a constant has one of its own.
pub(crate) fn wire_net(nets: &Seq<usize>, own: usize, wire: Wire) -> usize
    requires { IsWireBelow (length nets.now) wire }
    ensures { result ≡ spec.wire_net nets.now own wire }
{
    match wire {
        Wire::Const(_) => own,
        Wire::Net(net) => net_at(nets, net),
    }
}

/// The flat nets of wires; constants have their own, from a first one on.
pub(crate) fn wire_nets(
    alloc: Global,
    nets: &Seq<usize>,
    first: usize,
    wires: &Seq<Wire>,
) -> Result<Seq<usize>, AllocError>
    requires below { All (IsWireBelow (length nets.now)) wires.now }
    requires room { first + length wires.now < 2 ^ 64 }
    ensures { IfOk result (λ list. list ≡ spec.wire_nets nets.now first wires.now) }
{
    let mut list = Seq::from_vec(Vec::with_capacity(alloc, wires.len())?);
    for k in 0..wires.len() {
        let wire = wires.at(k);
        list.push(wire_net(nets, first + k, wire))?;
    }
    Ok(list)
}

/// The flat net of a pin: that of its first wire, and its own where it is open.
pub(crate) fn pin_net(nets: &Seq<usize>, conns: &[Conn], own: usize, pin: &Name) -> usize
    requires { All (λ (c : ConnRecord). AreWiresBelow (length nets.now) c.wires) conns.now }
    ensures { result ≡ spec.pin_net nets.now own (wires conns.now pin.now) }
{
    first_net(nets, own, wires_of(conns, pin))
}

/// The flat net of the first wire, or a pin's own where there is none.
fn first_net(nets: &Seq<usize>, own: usize, wires: &[Wire]) -> usize
    requires { All (IsWireBelow (length nets.now)) wires.now }
    ensures { result ≡ spec.pin_net nets.now own wires.now }
{
    match wires.first() {
        Some(wire) => wire_net(nets, own, *wire),
        None => own,
    }
}

/// The flat nets of pins, whose own are those from a first one on.
pub(crate) fn pin_nets(
    alloc: Global,
    nets: &Seq<usize>,
    conns: &[Conn],
    own: usize,
    pins: &Seq<Name>,
) -> Result<Seq<usize>, AllocError>
    requires below { All (λ (c : ConnRecord). AreWiresBelow (length nets.now) c.wires) conns.now }
    requires room { own + length pins.now < 2 ^ 64 }
    ensures { IfOk result (λ list. list ≡ spec.pin_nets nets.now conns.now own pins.now) }
{
    let mut list = Seq::from_vec(Vec::with_capacity(alloc, pins.len())?);
    for k in 0..pins.len() {
        let net = pin_net(nets, conns, own + k, pins.item(k));
        list.push(net)?;
    }
    Ok(list)
}
