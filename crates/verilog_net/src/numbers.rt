//! Ports and items by the numbers of the nets that have one.
ghost use Rattle.std.specs.Prelude.{◌≡◌, map, IfOk};
ghost use Rattle.std.specs.List.Sorted.{IsStrictlyIncreasing};
ghost use Rattle.verilog_net.specs.Uses as spec;

use netlist_types::{Conn, Item, Port, Wire};
use sdcv_base::Seq;
use std::alloc::{AllocError, Global};

/// The number of a net: its place among those that have one, and how many these are where it is none.
fn number(used: &[usize], net: usize) -> usize
    requires { IsStrictlyIncreasing used.now }
    ensures { result ≡ spec.number_in used.now net }
{
    match used.binary_search(&net) {
        Ok(place) => place,
        Err(_) => used.len(),
    }
}

fn numbered_nets(alloc: Global, used: &[usize], nets: &[usize]) -> Result<Seq<usize>, AllocError>
    requires { IsStrictlyIncreasing used.now }
    ensures { IfOk result (λ list. list ≡ map (spec.number_in used.now) nets.now) }
{
    let mut list = Seq::from_vec(Vec::with_capacity(alloc, nets.len())?);
    for net in nets {
        list.push(number(used, *net))?;
    }
    Ok(list)
}

fn numbered_wire(used: &[usize], wire: &Wire) -> Wire
    requires { IsStrictlyIncreasing used.now }
    ensures { result ≡ spec.numbered_wire used.now wire.now }
{
    match wire {
        Wire::Const(bit) => Wire::Const(*bit),
        Wire::Net(net) => Wire::Net(number(used, *net)),
    }
}

fn numbered_wires(alloc: Global, used: &[usize], wires: &[Wire]) -> Result<Seq<Wire>, AllocError>
    requires { IsStrictlyIncreasing used.now }
    ensures { IfOk result (λ list. list ≡ spec.numbered_wires used.now wires.now) }
{
    let mut list = Seq::from_vec(Vec::with_capacity(alloc, wires.len())?);
    for wire in wires {
        list.push(numbered_wire(used, wire))?;
    }
    Ok(list)
}

fn numbered_conn(alloc: Global, used: &[usize], conn: Conn) -> Result<Conn, AllocError>
    requires { IsStrictlyIncreasing used.now }
    ensures { IfOk result (λ numbered. numbered ≡ spec.numbered_conn used.now conn) }
{
    let Conn { pin, wires } = conn;
    match wires {
        None => Ok(Conn { pin, wires: None }),
        Some(wires) => {
            let wires = numbered_wires(alloc, used, wires.as_slice())?;
            Ok(Conn {
                pin,
                wires: Some(wires),
            })
        }
    }
}

fn numbered_conns(alloc: Global, used: &[usize], conns: Seq<Conn>) -> Result<Seq<Conn>, AllocError>
    requires { IsStrictlyIncreasing used.now }
    ensures { IfOk result (λ list. list ≡ map (spec.numbered_conn used.now) conns) }
{
    let mut list = Seq::from_vec(Vec::with_capacity(alloc, conns.len())?);
    for conn in conns.into_vec() {
        list.push(numbered_conn(alloc, used, conn)?)?;
    }
    Ok(list)
}

fn numbered_item(alloc: Global, used: &[usize], item: Item) -> Result<Item, AllocError>
    requires { IsStrictlyIncreasing used.now }
    ensures { IfOk result (λ numbered. numbered ≡ spec.numbered_item used.now item) }
{
    match item {
        Item::Inst { cell, name, conns } => {
            let conns = numbered_conns(alloc, used, conns)?;
            Ok(Item::Inst { cell, name, conns })
        }
        Item::Prim {
            kind,
            name,
            outs,
            ins,
        } => {
            let outs = numbered_nets(alloc, used, outs.as_slice())?;
            let ins = numbered_wires(alloc, used, ins.as_slice())?;
            Ok(Item::Prim {
                kind,
                name,
                outs,
                ins,
            })
        }
        Item::Copy { to, from } => Ok(Item::Copy {
            to: number(used, to),
            from: numbered_wire(used, &from),
        }),
    }
}

/// The items by these numbers.
pub fn numbered_items(
    alloc: Global,
    used: &[usize],
    items: Seq<Item>,
) -> Result<Seq<Item>, AllocError>
    requires { IsStrictlyIncreasing used.now }
    ensures { IfOk result (λ list. list ≡ map (spec.numbered_item used.now) items) }
{
    let mut list = Seq::from_vec(Vec::with_capacity(alloc, items.len())?);
    for item in items.into_vec() {
        list.push(numbered_item(alloc, used, item)?)?;
    }
    Ok(list)
}

fn numbered_port(alloc: Global, used: &[usize], port: Port) -> Result<Port, AllocError>
    requires { IsStrictlyIncreasing used.now }
    ensures { IfOk result (λ numbered. numbered ≡ spec.numbered_port used.now port) }
{
    let Port {
        name,
        dir,
        bits,
        bus,
    } = port;
    let bits = numbered_nets(alloc, used, bits.as_slice())?;
    Ok(Port {
        name,
        dir,
        bits,
        bus,
    })
}

/// The ports by these numbers.
pub fn numbered_ports(
    alloc: Global,
    used: &[usize],
    ports: Seq<Port>,
) -> Result<Seq<Port>, AllocError>
    requires { IsStrictlyIncreasing used.now }
    ensures { IfOk result (λ list. list ≡ map (spec.numbered_port used.now) ports) }
{
    let mut list = Seq::from_vec(Vec::with_capacity(alloc, ports.len())?);
    for port in ports.into_vec() {
        list.push(numbered_port(alloc, used, port)?)?;
    }
    Ok(list)
}
