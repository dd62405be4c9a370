//! The nets that stand in the ports and items of a module.
ghost use Rattle.std.specs.Prelude.{◌≡◌, ◌++◌, OnOk, IfOk};
ghost use Rattle.std.specs.List.{flat_map};
ghost use Rattle.verilog_net.specs.Orders.{IsInOrder};
ghost use Rattle.verilog_net.specs.Uses as spec;

use netlist_types::{Conn, Item, Port, Wire};
use sdcv_base::Seq;
use std::alloc::{AllocError, Global};

/// The nets that stand in ports or items, each once, ascending.
pub fn used_nets(alloc: Global, ports: &[Port], items: &[Item]) -> Result<Seq<usize>, AllocError>
    ensures { IfOk result (IsInOrder (spec.standing_nets ports.now items.now)) }
{
    let mut nets = Seq::new(alloc);
    push_ports(&mut nets, ports)?;
    push_items(&mut nets, items)?;
    Ok(Seq::from_vec(in_order(nets.into_vec())))
}

/// The same numbers, each once, ascending.
fn in_order(numbers: Vec<usize>) -> Vec<usize>
    ensures { IsInOrder numbers.items result.items }
{
    let mut ascending = numbers;
    ascending.sort_unstable();
    ascending.dedup();
    ascending
}

fn push_nets(nets: &mut Seq<usize>, more: &[usize]) -> Result<(), AllocError>
    ensures { OnOk result (nets.new ≡ nets.old ++ more.now) }
{
    for net in more {
        nets.push(*net)?;
    }
    Ok(())
}

fn push_ports(nets: &mut Seq<usize>, ports: &[Port]) -> Result<(), AllocError>
    ensures { OnOk result (nets.new ≡ nets.old ++ flat_map spec.port_nets ports.now) }
{
    for port in ports {
        push_nets(nets, port.bits.as_slice())?;
    }
    Ok(())
}

fn push_items(nets: &mut Seq<usize>, items: &[Item]) -> Result<(), AllocError>
    ensures { OnOk result (nets.new ≡ nets.old ++ flat_map spec.item_nets items.now) }
{
    for item in items {
        push_item(nets, item)?;
    }
    Ok(())
}

fn push_item(nets: &mut Seq<usize>, item: &Item) -> Result<(), AllocError>
    ensures { OnOk result (nets.new ≡ nets.old ++ spec.item_nets item.now) }
{
    match item {
        Item::Inst { conns, .. } => push_conns(nets, conns.as_slice()),
        Item::Prim { outs, ins, .. } => {
            push_nets(nets, outs.as_slice())?;
            push_wires(nets, ins.as_slice())
        }
        Item::Copy { to, from } => {
            nets.push(*to)?;
            push_wire(nets, from)
        }
    }
}

fn push_conns(nets: &mut Seq<usize>, conns: &[Conn]) -> Result<(), AllocError>
    ensures { OnOk result (nets.new ≡ nets.old ++ flat_map spec.conn_nets conns.now) }
{
    for conn in conns {
        push_conn(nets, conn)?;
    }
    Ok(())
}

fn push_conn(nets: &mut Seq<usize>, conn: &Conn) -> Result<(), AllocError>
    ensures { OnOk result (nets.new ≡ nets.old ++ spec.conn_nets conn.now) }
{
    match &conn.wires {
        None => Ok(()),
        Some(wires) => push_wires(nets, wires.as_slice()),
    }
}

fn push_wires(nets: &mut Seq<usize>, wires: &[Wire]) -> Result<(), AllocError>
    ensures { OnOk result (nets.new ≡ nets.old ++ spec.nets_of_wires wires.now) }
{
    for wire in wires {
        push_wire(nets, wire)?;
    }
    Ok(())
}

fn push_wire(nets: &mut Seq<usize>, wire: &Wire) -> Result<(), AllocError>
    ensures { OnOk result (nets.new ≡ nets.old ++ spec.wire_nets wire.now) }
{
    match wire {
        Wire::Const(_) => Ok(()),
        Wire::Net(net) => {
            nets.push(*net)?;
            Ok(())
        }
    }
}
