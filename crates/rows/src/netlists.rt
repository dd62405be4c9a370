//! Netlists as lines.
use std::alloc::{AllocError, Global};
use verilog_net::{Conn, Dir, Item, Port, Source, Wire, read_verilog};

fn push_wire(text: &mut String, wire: &Wire) -> Result<(), AllocError> {
    match wire {
        Wire::Const(true) => text.push_str("'1")?,
        Wire::Const(false) => text.push_str("'0")?,
        Wire::Net(net) => write!(text, "{net}")?,
    }
    Ok(())
}

fn push_port(text: &mut String, port: &Port) -> Result<(), AllocError> {
    text.push_str(match port.dir {
        Dir::Input => " input ",
        Dir::Output => " output ",
        Dir::Inout => " inout ",
    })?;
    let name = &port.name;
    write!(text, "{name}")?;
    for bit in port.bits.as_slice() {
        write!(text, " {bit}")?;
    }
    text.push_str(if port.bus { " bus;" } else { ";" })?;
    Ok(())
}

fn push_conn(text: &mut String, conn: &Conn) -> Result<(), AllocError> {
    let pin = &conn.pin;
    write!(text, " {pin}")?;
    if let Some(wires) = &conn.wires {
        for wire in wires.as_slice() {
            text.push_str("=")?;
            push_wire(text, wire)?;
        }
    }
    Ok(())
}

fn push_prim(text: &mut String, outs: &[usize], ins: &[Wire]) -> Result<(), AllocError> {
    for out in outs {
        write!(text, " {out}")?;
    }
    text.push_str(" <")?;
    for wire in ins {
        text.push_str(" ")?;
        push_wire(text, wire)?;
    }
    Ok(())
}

fn push_item(text: &mut String, item: &Item) -> Result<(), AllocError> {
    match item {
        Item::Inst { cell, name, conns } => {
            write!(text, " {cell} {name}")?;
            for conn in conns.as_slice() {
                push_conn(text, conn)?;
            }
        }
        Item::Prim {
            kind,
            name,
            outs,
            ins,
        } => {
            write!(text, " {kind:?}")?;
            match name {
                Some(name) => write!(text, " {name}")?,
                None => text.push_str(" -")?,
            }
            push_prim(text, outs.as_slice(), ins.as_slice())?;
        }
        Item::Copy { to, from } => {
            write!(text, " {to} < ")?;
            push_wire(text, from)?;
        }
    }
    text.push_str(";")?;
    Ok(())
}

// A netlist, each module in a line with its ports and their nets, the names of its nets, and its items.
fn shown(alloc: Global, source: &Source) -> Result<String, AllocError> {
    let mut text = String::new(alloc);
    for module in source.modules.as_slice() {
        let name = &module.name;
        write!(text, "{name}:")?;
        for port in module.ports.as_slice() {
            push_port(&mut text, port)?;
        }
        for net in module.nets.as_slice() {
            write!(text, " {net}")?;
        }
        text.push_str(" |")?;
        for item in module.items.as_slice() {
            push_item(&mut text, item)?;
        }
        text.push_str("\n")?;
    }
    Ok(text)
}

/// `netlist FILE`: the netlist, or how its fault is told.
pub fn netlist_text(alloc: Global, text: &[u8]) -> Result<String, AllocError> {
    match read_verilog(alloc, text, false) {
        Ok(source) => shown(alloc, &source),
        Err(fault) => format!(in alloc; "{fault}\n"),
    }
}
