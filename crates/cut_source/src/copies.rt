//! Copies of what stands in a module.
ghost use Rattle.std.specs.Prelude.{◌≡◌, IfOk};

use netlist_types::{Conn, Item, Port, Wire};
use sdcv_base::{Name, Seq};
use std::alloc::{AllocError, Global};

/// Equal names.
pub(crate) fn copy_names(alloc: Global, names: &Seq<Name>) -> Result<Seq<Name>, AllocError>
    ensures { IfOk result (λ list. list ≡ names.now) }
{
    let mut list = Seq::new(alloc);
    for k in 0..names.len() {
        list.push(names.item(k).copy(alloc)?)?;
    }
    Ok(list)
}

/// An equal port.
fn copy_port(alloc: Global, port: &Port) -> Result<Port, AllocError>
    ensures { IfOk result (λ p. p ≡ port.now) }
{
    Ok(Port {
        name: port.name.copy(alloc)?,
        dir: port.dir,
        bits: port.bits.copy(alloc)?,
        bus: port.bus,
    })
}

/// Equal ports.
pub(crate) fn copy_ports(alloc: Global, ports: &Seq<Port>) -> Result<Seq<Port>, AllocError>
    ensures { IfOk result (λ list. list ≡ ports.now) }
{
    let mut list = Seq::new(alloc);
    for k in 0..ports.len() {
        list.push(copy_port(alloc, ports.item(k))?)?;
    }
    Ok(list)
}

/// Equal wires, where there are any.
fn copy_wires(alloc: Global, wires: &Option<Seq<Wire>>) -> Result<Option<Seq<Wire>>, AllocError>
    ensures { IfOk result (λ copied. copied ≡ wires.now) }
{
    match wires {
        Some(wires) => Ok(Some(wires.copy(alloc)?)),
        None => Ok(None),
    }
}

/// An equal connection.
fn copy_conn(alloc: Global, conn: &Conn) -> Result<Conn, AllocError>
    ensures { IfOk result (λ c. c ≡ conn.now) }
{
    Ok(Conn {
        pin: conn.pin.copy(alloc)?,
        wires: copy_wires(alloc, &conn.wires)?,
    })
}

/// Equal connections.
fn copy_conns(alloc: Global, conns: &Seq<Conn>) -> Result<Seq<Conn>, AllocError>
    ensures { IfOk result (λ list. list ≡ conns.now) }
{
    let mut list = Seq::new(alloc);
    for k in 0..conns.len() {
        list.push(copy_conn(alloc, conns.item(k))?)?;
    }
    Ok(list)
}

/// An equal name, where there is one.
fn copy_if_any(alloc: Global, name: &Option<Name>) -> Result<Option<Name>, AllocError>
    ensures { IfOk result (λ copied. copied ≡ name.now) }
{
    match name {
        Some(name) => Ok(Some(name.copy(alloc)?)),
        None => Ok(None),
    }
}

/// An equal item.
pub(crate) fn copy_item(alloc: Global, item: &Item) -> Result<Item, AllocError>
    ensures { IfOk result (λ i. i ≡ item.now) }
{
    match item {
        Item::Inst { cell, name, conns } => Ok(Item::Inst {
            cell: cell.copy(alloc)?,
            name: name.copy(alloc)?,
            conns: copy_conns(alloc, conns)?,
        }),
        Item::Prim {
            kind,
            name,
            outs,
            ins,
        } => Ok(Item::Prim {
            kind: *kind,
            name: copy_if_any(alloc, name)?,
            outs: outs.copy(alloc)?,
            ins: ins.copy(alloc)?,
        }),
        Item::Copy { to, from } => Ok(Item::Copy {
            to: *to,
            from: *from,
        }),
    }
}
