//! Refusals of an instance of a module.
ghost use Rattle.std.specs.Prelude.{◌≡◌, [], map, All, Contains, true, false, length, IfErr, IfOk, OnOk, IfSome, IfNone};
ghost use Rattle.net_model.specs.Netlist.{AllBelow};
ghost use Rattle.texts.specs.Names.{with_names};
ghost use Rattle.netlist_types.specs.declared.sources.Port.{Port as PortRecord};
ghost use Rattle.netlist_types.specs.declared.sources.Dir.TheVariants as dir;
ghost use Rattle.link_items.specs.Faults.{IsModuleFault};
ghost use Rattle.link_items.specs.Fine.{IsFinePort, IsFineModule};
ghost use Rattle.link_items.specs.Pins.{port_names, is_unknown};

use crate::conn_tables::ConnTable;
use crate::names::pin_name;
use linked_types::LinkFault;
use netlist_types::{Conn, Dir, Module, Port};
use sdcv_base::Name;
use std::alloc::{AllocError, Global};
use texts::NameTable;

/// The names of ports in their order.
fn ports_table(alloc: Global, ports: &[Port]) -> Result<NameTable, AllocError>
    ensures { IfOk result (λ names. names ≡ with_names [] (map (λ (p : PortRecord). p.name) ports.now)) }
{
    let mut names = NameTable::new(alloc);
    for port in ports {
        names.add(alloc, &port.name)?;
    }
    Ok(names)
}

/// The first connection to a pin that is not among these, if any.
fn unknown_conn<'a>(conns: &'a [Conn], pins: &NameTable) -> Option<&'a Conn>
    ensures some { IfSome result (λ conn. Contains conns.now conn.now × (is_unknown pins.now conn.now ≡ true)) }
    ensures none { IfNone result (All (λ conn. is_unknown pins.now conn ≡ false) conns.now) }
{
    conns.iter().find(|conn| !pins.contains(&conn.pin))
}

/// Refuses a connection to a port that the module does not have.
fn check_known(alloc: Global, full: &Name, conns: &[Conn], body: &Module) -> Result<(), LinkFault>
    ensures ok { OnOk result (All (λ conn. is_unknown (port_names body.now) conn ≡ false) conns.now) }
    ensures err { IfErr result (IsModuleFault body.now full.now conns.now) }
{
    let ports = ports_table(alloc, body.ports.as_slice())?;
    match unknown_conn(conns, &ports) {
        Some(conn) => {
            let name = pin_name(alloc, full, &conn.pin)?;
            Err(LinkFault::UnknownPin(name))
        }
        None => Ok(()),
    }
}

/// Refuses an input port whose bits nothing is connected to, by its first bit.
fn check_input(
    alloc: Global,
    full: &Name,
    conns: &ConnTable,
    body: &Module,
    port: &Port,
) -> Result<(), LinkFault>
    requires port { Contains body.now.ports port.now }
    requires input { port.now.dir ≡ dir.Input }
    requires bits { AllBelow (length body.now.nets) port.now.bits }
    ensures ok { OnOk result (IsFinePort conns.now port.now) }
    ensures err { IfErr result (IsModuleFault body.now full.now conns.now) }
{
    if port.bits.is_empty() || !conns.is_open(&port.name) {
        return Ok(());
    }
    let first = port.bits.at(0);
    let name = pin_name(alloc, full, body.nets.item(first))?;
    Err(LinkFault::OpenInput(name))
}

/// Refuses an output port that a constant is connected to.
fn check_output(
    alloc: Global,
    full: &Name,
    conns: &ConnTable,
    body: &Module,
    port: &Port,
) -> Result<(), LinkFault>
    requires port { Contains body.now.ports port.now }
    requires output { port.now.dir ≡ dir.Output }
    ensures ok { OnOk result (IsFinePort conns.now port.now) }
    ensures err { IfErr result (IsModuleFault body.now full.now conns.now) }
{
    if conns.is_tied(&port.name) {
        let name = pin_name(alloc, full, &port.name)?;
        return Err(LinkFault::ManyDrivers(name));
    }
    Ok(())
}

/// Refuses a port for what it is connected to.
fn check_port(
    alloc: Global,
    full: &Name,
    conns: &ConnTable,
    body: &Module,
    port: &Port,
) -> Result<(), LinkFault>
    requires port { Contains body.now.ports port.now }
    requires bits { AllBelow (length body.now.nets) port.now.bits }
    ensures ok { OnOk result (IsFinePort conns.now port.now) }
    ensures err { IfErr result (IsModuleFault body.now full.now conns.now) }
{
    match port.dir {
        Dir::Input => check_input(alloc, full, conns, body, port),
        Dir::Output => check_output(alloc, full, conns, body, port),
        Dir::Inout => Ok(()),
    }
}

/// Refuses the ports of an instance for what they are connected to.
fn check_ports(
    alloc: Global,
    full: &Name,
    conns: &ConnTable,
    body: &Module,
) -> Result<(), LinkFault>
    requires bits { All (λ (p : PortRecord). AllBelow (length body.now.nets) p.bits) body.now.ports }
    ensures ok { OnOk result (All (IsFinePort conns.now) body.now.ports) }
    ensures err { IfErr result (IsModuleFault body.now full.now conns.now) }
{
    for k in 0..body.ports.len() {
        check_port(alloc, full, conns, body, body.ports.item(k))?;
    }
    Ok(())
}

/// Refuses an instance of a module for its connections.
pub(crate) fn check_module(
    alloc: Global,
    full: &Name,
    conns: &ConnTable,
    body: &Module,
) -> Result<(), LinkFault>
    requires bits { All (λ (p : PortRecord). AllBelow (length body.now.nets) p.bits) body.now.ports }
    ensures ok { OnOk result (IsFineModule conns.now body.now) }
    ensures err { IfErr result (IsModuleFault body.now full.now conns.now) }
{
    check_known(alloc, full, conns.list(), body)?;
    check_ports(alloc, full, conns, body)?;
    Ok(())
}
