//! The bits of ports by name.
ghost use Rattle.std.specs.Prelude.{◌≡◌, ◌++◌, ◌<◌, All, length, map, IfOk, OnOk, if◌then◌else◌, Some, None};
ghost use Rattle.net_model.specs.Netlist.{AllBelow};
ghost use Rattle.netlist_types.specs.declared.sources.Port.{Port as PortRecord};
ghost use Rattle.link_defs.specs.Circuits.{is_input as reads, input_bits, output_bits};
ghost use Rattle.link_defs.specs.Links.{ports_of};
ghost use Rattle.link_tops.specs.Ports.{bit_name, bit_names_if};

use linked_types::PortName;
use netlist_types::{Dir, Module, Port};
use sdcv_base::{Name, Seq};
use std::alloc::{AllocError, Global};

/// Whether the bits of such a port of the top module are input bits.
fn is_input(dir: Dir) -> bool
    ensures { result ≡ reads dir }
{
    match dir {
        Dir::Input | Dir::Inout => true,
        Dir::Output => false,
    }
}

/// The port's own name, where it is a bus.
fn bus_name(alloc: Global, port: &Port) -> Result<Option<Name>, AllocError>
    ensures { IfOk result (λ bus. bus ≡ (if port.now.bus then (Some port.now.name) else None)) }
{
    if port.bus {
        Ok(Some(port.name.copy(alloc)?))
    } else {
        Ok(None)
    }
}

/// Appends the names of the bits of a port.
fn push_bits(
    alloc: Global,
    list: &mut Seq<PortName>,
    body: &Module,
    port: &Port,
) -> Result<(), AllocError>
    requires { AllBelow (length body.now.nets) port.now.bits }
    ensures { OnOk result (list.new ≡ list.old ++ map (bit_name body.now port.now) port.now.bits) }
{
    for k in 0..port.bits.len() {
        let net = port.bits.at(k);
        let name = body.nets.item(net).copy(alloc)?;
        let bus = bus_name(alloc, port)?;
        list.push(PortName { name, bus })?;
    }
    Ok(())
}

/// Appends the names of the bits of a port, if it is wanted.
fn push_if(
    alloc: Global,
    list: &mut Seq<PortName>,
    body: &Module,
    port: &Port,
    wanted: bool,
) -> Result<(), AllocError>
    requires { AllBelow (length body.now.nets) port.now.bits }
    ensures { OnOk result (list.new ≡ list.old ++ bit_names_if wanted body.now port.now) }
{
    if wanted {
        return push_bits(alloc, list, body, port);
    }
    Ok(())
}

/// The bits of the input ports of a module by name, in port order, the most significant first.
pub fn input_names(alloc: Global, body: &Module) -> Result<Seq<PortName>, AllocError>
    requires { All (λ (p : PortRecord). AllBelow (length body.now.nets) p.bits) body.now.ports }
    ensures { IfOk result (λ list. list ≡ ports_of (input_bits body.now)) }
{
    let mut list = Seq::new(alloc);
    for k in 0..body.ports.len() {
        let port = body.ports.item(k);
        push_if(alloc, &mut list, body, port, is_input(port.dir))?;
    }
    Ok(list)
}

/// The bits of its output ports, likewise.
pub fn output_names(alloc: Global, body: &Module) -> Result<Seq<PortName>, AllocError>
    requires { All (λ (p : PortRecord). AllBelow (length body.now.nets) p.bits) body.now.ports }
    ensures { IfOk result (λ list. list ≡ ports_of (output_bits body.now)) }
{
    let mut list = Seq::new(alloc);
    for k in 0..body.ports.len() {
        let port = body.ports.item(k);
        push_if(alloc, &mut list, body, port, !is_input(port.dir))?;
    }
    Ok(list)
}
