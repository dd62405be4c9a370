//! Instances of modules without items that are cut out.
ghost use Rattle.std.specs.Prelude.{◌≡◌, ◌++◌, All, length, map, flat_map, zip, find, IfOk, OnOk};
ghost use Rattle.std.specs.Option.{option_copied};
ghost use Rattle.texts.specs.Names.{is_among};
ghost use Rattle.net_model.specs.Netlist.{AllBelow};
ghost use Rattle.netlist_types.specs.declared.sources.Port.{Port as PortRecord};
ghost use Rattle.link_items.specs.Pins.{is_unknown};
ghost use Rattle.cut_source.specs.Items as items;
ghost use Rattle.cut_source.specs.Pins as spec;

use crate::cell_items::push_wire;
use crate::conns::{has_const, wire_at, wires_of};
use crate::ways::{is_out, port_way};
use link_defs::{CutFault, CutItem, CutPin};
use netlist_types::{Conn, Module, Port, Wire};
use sdcv_base::{Name, Seq};
use std::alloc::{AllocError, Global};

/// Appends the bits of a port that these wires connect to a net.
fn push_bits(
    alloc: Global,
    pins: &mut Seq<CutPin>,
    stub: &Module,
    port: &Port,
    wires: &[Wire],
) -> Result<(), AllocError>
    requires { AllBelow (length stub.now.nets) port.now.bits }
    ensures { OnOk result (pins.new ≡ pins.old ++ flat_map (spec.bit_pins stub.now (spec.port_way port.now.dir)) (zip port.now.bits wires.now)) }
{
    for k in 0..port.bits.len().min(wires.len()) {
        let name = stub.nets.item(port.bits.at(k));
        let wire = wire_at(wires, k);
        push_wire(alloc, pins, name, port_way(port.dir), wire)?;
    }
    Ok(())
}

/// The pins of an instance of a module.
fn stub_pins(alloc: Global, stub: &Module, conns: &[Conn]) -> Result<Seq<CutPin>, AllocError>
    requires { All (λ (p : PortRecord). AllBelow (length stub.now.nets) p.bits) stub.now.ports }
    ensures { IfOk result (λ pins. pins ≡ spec.stub_pins stub.now conns.now) }
{
    let mut pins = Seq::new(alloc);
    for k in 0..stub.ports.len() {
        let port = stub.ports.item(k);
        push_bits(alloc, &mut pins, stub, port, wires_of(conns, &port.name))?;
    }
    Ok(pins)
}

/// Whether a module has a port of that name.
fn has_port(ports: &[Port], name: &Name) -> bool
    ensures { result ≡ is_among name.now (map (λ (p : PortRecord). p.name) ports.now) }
{
    ports.iter().any(|port| *name == port.name)
}

/// The first connection to no port.
fn stray_conn<'a>(ports: &[Port], conns: &'a [Conn]) -> Option<&'a Conn>
    ensures { option_copied result ≡ find (is_unknown (map (λ (p : PortRecord). p.name) ports.now)) conns.now }
{
    conns.iter().find(|conn| !has_port(ports, &conn.pin))
}

/// Whether a constant is connected to an output port.
fn is_tied_port(conns: &[Conn], port: &Port) -> bool
    ensures { result ≡ spec.is_tied_port conns.now port.now }
{
    is_out(Some(port_way(port.dir))) && has_const(wires_of(conns, &port.name))
}

/// The first output port that a constant is connected to.
fn tied_port<'a>(conns: &[Conn], ports: &'a [Port]) -> Option<&'a Port>
    ensures { option_copied result ≡ find (spec.is_tied_port conns.now) ports.now }
{
    ports.iter().find(|port| is_tied_port(conns, port))
}

/// Why such an instance can't be cut out, if its ports forbid it.
fn port_fault(alloc: Global, ports: &[Port], conns: &[Conn]) -> Result<Option<CutFault>, AllocError>
    ensures { IfOk result (λ fault. fault ≡ spec.tied_port (find (spec.is_tied_port conns.now) ports.now)) }
{
    match tied_port(conns, ports) {
        Some(port) => Ok(Some(CutFault::Tied(port.name.copy(alloc)?))),
        None => Ok(None),
    }
}

/// Why such an instance can't be cut out, if it can't.
fn stub_fault(alloc: Global, stub: &Module, conns: &[Conn]) -> Result<Option<CutFault>, AllocError>
    ensures { IfOk result (λ fault. fault ≡ spec.stub_fault stub.now conns.now) }
{
    match stray_conn(stub.ports.as_slice(), conns) {
        Some(conn) => Ok(Some(CutFault::Stray(conn.pin.copy(alloc)?))),
        None => port_fault(alloc, stub.ports.as_slice(), conns),
    }
}

/// An instance of a module without items that is cut out of a module.
pub(crate) fn stub_cut(
    alloc: Global,
    body: &Module,
    stub: &Module,
    reference: &Name,
    name: &Name,
    conns: &Seq<Conn>,
) -> Result<CutItem, AllocError>
    requires { All (λ (p : PortRecord). AllBelow (length stub.now.nets) p.bits) stub.now.ports }
    ensures { IfOk result (λ x. x ≡ items.stub_cut body.now stub.now reference.now name.now conns.now) }
{
    Ok(CutItem {
        module: body.name.copy(alloc)?,
        cell: reference.copy(alloc)?,
        name: name.copy(alloc)?,
        clocked: true,
        pins: stub_pins(alloc, stub, conns.as_slice())?,
        fault: stub_fault(alloc, stub, conns.as_slice())?,
    })
}
