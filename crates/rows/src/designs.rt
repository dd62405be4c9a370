//! Designs and their names as text.
use net_link::{CellName, Linked, NetName, PinRole, PortName};
use net_model::{Design, Fixed, Func, Gate, Node, PinRef, Reg};
use sdcv_base::Seq;
use std::alloc::{AllocError, Global};

// A place in 32 rows: row k has bit i of k at place i.
fn place_rows(place: usize) -> u32 {
    match place {
        0 => 0xaaaa_aaaa,
        1 => 0xcccc_cccc,
        2 => 0xf0f0_f0f0,
        3 => 0xff00_ff00,
        _ => 0xffff_0000,
    }
}

// The values of a function of at most five places in the 32 rows, the first the least significant.
fn rows(func: &Func) -> u32 {
    match &func.node {
        Node::Zero => 0,
        Node::One => 0xffff_ffff,
        Node::Pin(place) => place_rows(*place),
        Node::Not(f) => !rows(f),
        Node::And(f, g) => rows(f) & rows(g),
        Node::Or(f, g) => rows(f) | rows(g),
        Node::Xor(f, g) => rows(f) ^ rows(g),
    }
}

fn push_rows(text: &mut String, func: &Func) -> Result<(), AllocError> {
    let bits = rows(func);
    Ok(write!(text, " {bits:08x}")?)
}

fn push_if_any(text: &mut String, func: &Option<Func>) -> Result<(), AllocError> {
    match func {
        Some(func) => push_rows(text, func),
        None => Ok(text.push_str(" -")?),
    }
}

fn push_nets(text: &mut String, nets: &[usize]) -> Result<(), AllocError> {
    for net in nets {
        write!(text, " {net}")?;
    }
    Ok(())
}

// What it reads, the nets of its bit and of its complement, and its values, its own bit after what it reads.
fn push_reg(text: &mut String, reg: &Reg) -> Result<(), AllocError> {
    text.push_str("\nreg")?;
    push_nets(text, reg.ins.as_slice())?;
    for out in reg.outs.as_slice() {
        let sign = if out.inverted { "~" } else { ">" };
        let net = out.net;
        write!(text, " {sign}{net}")?;
    }
    push_rows(text, &reg.next)?;
    push_if_any(text, &reg.clear)?;
    push_if_any(text, &reg.preset)
}

// What it reads, the net that it drives, and its values.
fn push_gate(text: &mut String, gate: &Gate) -> Result<(), AllocError> {
    text.push_str("\ngate")?;
    push_nets(text, gate.ins.as_slice())?;
    let out = gate.out;
    write!(text, " >{out}")?;
    push_rows(text, &gate.func)
}

fn push_held(text: &mut String, label: &str, held: &[Fixed]) -> Result<(), AllocError> {
    for one in held {
        let input = one.input;
        let value = one.value;
        write!(text, "\n{label} {input} {value}")?;
    }
    Ok(())
}

fn push_design(text: &mut String, design: &Design) -> Result<(), AllocError> {
    push_held(text, "fixed", design.fixed.as_slice())?;
    push_held(text, "reset", design.resets.as_slice())?;
    for reg in design.regs.as_slice() {
        push_reg(text, reg)?;
    }
    for gate in design.gates.as_slice() {
        push_gate(text, gate)?;
    }
    Ok(())
}

fn push_port(text: &mut String, port: &PortName) -> Result<(), AllocError> {
    let name = &port.name;
    write!(text, " {name}")?;
    if let Some(bus) = &port.bus {
        write!(text, ":{bus}")?;
    }
    Ok(())
}

/// The names of port bits, each with its bus.
pub fn ports_text(alloc: Global, ports: &Seq<PortName>) -> Result<String, AllocError> {
    let mut text = String::new(alloc);
    for port in ports.as_slice() {
        push_port(&mut text, port)?;
    }
    Ok(text)
}

// Port bits, each with its net.
fn push_ports(
    text: &mut String,
    ports: &Seq<PortName>,
    nets: &Seq<usize>,
) -> Result<(), AllocError> {
    for (port, net) in ports.as_slice().iter().zip(nets.as_slice()) {
        push_port(text, port)?;
        write!(text, "={net}")?;
    }
    Ok(())
}

// Its name, its register, and the nets that it drives.
fn push_cell(text: &mut String, cell: &CellName) -> Result<(), AllocError> {
    let name = &cell.name;
    write!(text, "\ncell {name}")?;
    if let Some(reg) = cell.reg {
        write!(text, ":{reg}")?;
    }
    push_nets(text, cell.outs.as_slice())
}

/// The clock, inputs, outputs and cells, each on a line of its own, and then what is set, the registers and the gates.
pub fn design_text(alloc: Global, linked: &Linked) -> Result<String, AllocError> {
    let mut text = String::new(alloc);
    if let Some(clock) = &linked.names.clock {
        let name = &clock.name;
        write!(text, "clock {name}\n")?;
    }
    text.push_str("in")?;
    push_ports(&mut text, &linked.names.ins, &linked.design.inputs)?;
    text.push_str("\nout")?;
    push_ports(&mut text, &linked.names.outs, &linked.design.outputs)?;
    for cell in linked.names.cells.as_slice() {
        push_cell(&mut text, cell)?;
    }
    push_design(&mut text, &linked.design)?;
    Ok(text)
}

fn push_load(text: &mut String, pin: &PinRef) -> Result<(), AllocError> {
    match pin {
        PinRef::GateIn(gate, place) => write!(text, "<g{gate}.{place}")?,
        PinRef::RegIn(reg, place) => write!(text, "<r{reg}.{place}")?,
        PinRef::Net(_) | PinRef::OutPort(_) => text.push_str("<?")?,
    }
    Ok(())
}

fn push_loads(text: &mut String, pins: &[PinRef]) -> Result<(), AllocError> {
    for pin in pins {
        push_load(text, pin)?;
    }
    Ok(())
}

fn push_role(text: &mut String, role: &PinRole) -> Result<(), AllocError> {
    match role {
        PinRole::Clock => Ok(text.push_str("@")?),
        PinRole::Drive(net) => Ok(write!(text, ">{net}")?),
        PinRole::Load(pins) => push_loads(text, pins.as_slice()),
        PinRole::Source(input) => Ok(write!(text, "<{input}")?),
        PinRole::Sink(output) => Ok(write!(text, ">>{output}")?),
    }
}

fn push_pins(text: &mut String, cell: &CellName) -> Result<(), AllocError> {
    let owner = &cell.name;
    for pin in cell.pins.as_slice() {
        let name = &pin.name;
        write!(text, " {owner}/{name}")?;
        push_role(text, &pin.role)?;
    }
    Ok(())
}

fn push_net_names(text: &mut String, names: &Seq<NetName>) -> Result<(), AllocError> {
    for named in names.as_slice() {
        let name = &named.name;
        let net = named.net;
        write!(text, " {name}={net}")?;
    }
    Ok(())
}

/// A word for each full name of a net, with the net, and for each pin of a cell, with the pins that read with it or the net
/// that it drives.
pub fn names_text(alloc: Global, linked: &Linked) -> Result<String, AllocError> {
    let mut text = String::new(alloc);
    push_net_names(&mut text, &linked.names.nets)?;
    for cell in linked.names.cells.as_slice() {
        push_pins(&mut text, cell)?;
    }
    Ok(text)
}
