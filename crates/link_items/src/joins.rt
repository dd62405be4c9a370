//! The flat nets of an instance of a module: its own, joined with those outside.
ghost use Rattle.std.specs.Prelude.{◌≡◌, ◌≤◌, ◌<◌, ◌+◌, ◌^◌, ◌++◌, All, length, flat_map, IfOk, OnOk};
ghost use Rattle.net_model.specs.Netlist.{AllBelow};
ghost use Rattle.netlist_types.specs.declared.sources.Conn.{Conn as ConnRecord};
ghost use Rattle.netlist_types.specs.declared.sources.Port.{Port as PortRecord};
ghost use Rattle.netlist_types.specs.Lawful.{IsWireBelow, AreWiresBelow};
ghost use Rattle.link_defs.specs.Hierarchy.{wires_of as wires};
ghost use Rattle.link_defs.specs.Flatten as spec;
ghost use Rattle.link_defs.specs.Parts.{bit_ties};

use crate::conn_tables::ConnTable;
use crate::conns::wire_at;
use crate::nets::net_at;
use crate::ties::push_bit_ties;
use link_defs::Part;
use netlist_types::{Module, Port, Wire};
use sdcv_base::Seq;
use std::alloc::{AllocError, Global};

/// So many numbers from a first one on.
pub fn numbers(alloc: Global, first: usize, count: usize) -> Result<Seq<usize>, AllocError>
    requires { first + count < 2 ^ 64 }
    ensures { IfOk result (λ list. list ≡ spec.numbers first count) }
{
    let mut list = Seq::from_vec(Vec::with_capacity(alloc, count)?);
    for k in 0..count {
        list.push(first + k)?;
    }
    Ok(list)
}

/// Joins one bit with the net that it is connected to.
fn join_bit(outer: &Seq<usize>, nets: &mut Seq<usize>, bit: usize, wire: Wire)
    requires bit { bit < length nets.old }
    requires wire { IsWireBelow (length outer.now) wire }
    ensures { nets.new ≡ spec.join_bit outer.now nets.old bit wire }
{
    match wire {
        Wire::Const(_) => {}
        Wire::Net(net) => nets.put(bit, net_at(outer, net)),
    }
}

/// Joins the bits of a port.
fn join_bits(outer: &Seq<usize>, nets: &mut Seq<usize>, bits: &Seq<usize>, wires: &[Wire])
    requires bits { AllBelow (length nets.old) bits.now }
    requires wires { All (IsWireBelow (length outer.now)) wires.now }
    requires width { length wires.now ≤ length bits.now }
    ensures joined { nets.new ≡ spec.join_bits outer.now nets.old bits.now wires.now }
    ensures len { length nets.new ≡ length nets.old }
{
    for k in 0..wires.len() {
        let bit = bits.at(k);
        let wire = wire_at(wires, k);
        join_bit(outer, nets, bit, wire);
    }
}

/// Joins the bits of one port with what the instance connects it to.
fn join_port(outer: &Seq<usize>, nets: &mut Seq<usize>, conns: &ConnTable, port: &Port)
    requires below { All (λ (c : ConnRecord). AreWiresBelow (length outer.now) c.wires) conns.now }
    requires bits { AllBelow (length nets.old) port.now.bits }
    requires width { length (wires conns.now port.now.name) ≤ length port.now.bits }
    ensures joined { nets.new ≡ spec.join_bits outer.now nets.old port.now.bits (wires conns.now port.now.name) }
    ensures len { length nets.new ≡ length nets.old }
{
    join_bits(outer, nets, &port.bits, conns.wires_of(&port.name));
}

/// The flat nets of an instance: those that its ports are connected to, and else its own, from a first one on.
pub(crate) fn inner_nets(
    alloc: Global,
    outer: &Seq<usize>,
    body: &Module,
    conns: &ConnTable,
    first: usize,
) -> Result<Seq<usize>, AllocError>
    requires below { All (λ (c : ConnRecord). AreWiresBelow (length outer.now) c.wires) conns.now }
    requires bits { All (λ (p : PortRecord). AllBelow (length body.now.nets) p.bits) body.now.ports }
    requires widths { All (λ (p : PortRecord). length (wires conns.now p.name) ≤ length p.bits) body.now.ports }
    requires room { first + length body.now.nets < 2 ^ 64 }
    ensures { IfOk result (λ list. list ≡ spec.inner_nets outer.now body.now conns.now first) }
{
    let mut nets = numbers(alloc, first, body.nets.len())?;
    for k in 0..body.ports.len() {
        join_port(outer, &mut nets, conns, body.ports.item(k));
    }
    Ok(nets)
}

/// Appends the constants that the ports of an instance are connected to.
pub(crate) fn push_port_ties(
    alloc: Global,
    parts: &mut Seq<Part>,
    body: &Module,
    conns: &ConnTable,
    first: usize,
) -> Result<(), AllocError>
    requires bits { All (λ (p : PortRecord). AllBelow (length body.now.nets) p.bits) body.now.ports }
    requires widths { All (λ (p : PortRecord). length (wires conns.now p.name) ≤ length p.bits) body.now.ports }
    requires room { first + length body.now.nets < 2 ^ 64 }
    ensures { OnOk result (parts.new ≡ parts.old ++ flat_map (λ (p : PortRecord). bit_ties first p.bits (wires conns.now p.name)) body.now.ports) }
{
    for k in 0..body.ports.len() {
        let port = body.ports.item(k);
        push_bit_ties(alloc, parts, first, &port.bits, conns.wires_of(&port.name))?;
    }
    Ok(())
}
