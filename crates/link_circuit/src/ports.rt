//! The nets of the top module's ports.
ghost use Rattle.std.specs.Prelude.{◌≡◌, ◌<◌, ◌++◌, All, length, IfOk, OnOk};
ghost use Rattle.net_model.specs.Netlist.{AllBelow};
ghost use Rattle.netlist_types.specs.declared.sources.Port.{Port as PortRecord};
ghost use Rattle.link_defs.specs.Circuits.{bit_nets, clock_bits, data_bits, output_bits};
ghost use Rattle.link_circuit.specs.Ports.{is_clock_net, HasNet, HasPort, HasInputs};

use netlist_types::{Dir, Module, Port};
use sdcv_base::{Name, Seq};
use std::alloc::{AllocError, Global};

/// The net of the clock's bit, if it has one, and the nets of the other bits of input ports and of output ports.
#[derive(Drop)]
pub struct PortNets {
    pub clocks: Seq<usize>,
    pub inputs: Seq<usize>,
    pub outputs: Seq<usize>,
}

/// The nets of the ports of a module, in port order, the most significant bit first.
pub fn port_nets(alloc: Global, body: &Module, clock: &Option<Name>) -> Result<PortNets, AllocError>
    requires { All (λ (p : PortRecord). AllBelow (length body.now.nets) p.bits) body.now.ports }
    ensures clocks { IfOk result (λ n. n.clocks ≡ bit_nets (clock_bits clock.now body.now)) }
    ensures inputs { IfOk result (λ n. n.inputs ≡ bit_nets (data_bits clock.now body.now)) }
    ensures outputs { IfOk result (λ n. n.outputs ≡ bit_nets (output_bits body.now)) }
{
    let mut nets = PortNets {
        clocks: Seq::new(alloc),
        inputs: Seq::new(alloc),
        outputs: Seq::new(alloc),
    };
    for k in 0..body.ports.len() {
        push_port(body, clock, body.ports.item(k), &mut nets)?;
    }
    Ok(nets)
}

/// Appends the nets of a port.
fn push_port(
    body: &Module,
    clock: &Option<Name>,
    port: &Port,
    nets: &mut PortNets,
) -> Result<(), AllocError>
    requires { AllBelow (length body.now.nets) port.now.bits }
    ensures { OnOk result (HasPort body.now clock.now port.now nets.old nets.new) }
{
    match port.dir {
        Dir::Input | Dir::Inout => push_inputs(body, clock, &port.bits, nets),
        Dir::Output => push_outputs(&port.bits, nets),
    }
}

/// Appends the nets of an output port.
fn push_outputs(bits: &Seq<usize>, nets: &mut PortNets) -> Result<(), AllocError>
    ensures clocks { OnOk result (nets.new.clocks ≡ nets.old.clocks) }
    ensures inputs { OnOk result (nets.new.inputs ≡ nets.old.inputs) }
    ensures outputs { OnOk result (nets.new.outputs ≡ nets.old.outputs ++ bits.now) }
{
    for k in 0..bits.len() {
        nets.outputs.push(bits.at(k))?;
    }
    Ok(())
}

/// Appends the nets of an input port, those of the clock apart.
fn push_inputs(
    body: &Module,
    clock: &Option<Name>,
    bits: &Seq<usize>,
    nets: &mut PortNets,
) -> Result<(), AllocError>
    requires { AllBelow (length body.now.nets) bits.now }
    ensures { OnOk result (HasInputs body.now clock.now bits.now nets.old nets.new) }
{
    for k in 0..bits.len() {
        let net = bits.at(k);
        push_input(nets, net, is_clock(body, clock, net))?;
    }
    Ok(())
}

/// Appends the net of a bit of an input port.
fn push_input(nets: &mut PortNets, net: usize, clock: bool) -> Result<(), AllocError>
    ensures { OnOk result (HasNet clock net nets.old nets.new) }
{
    if clock {
        nets.clocks.push(net)?;
    } else {
        nets.inputs.push(net)?;
    }
    Ok(())
}

/// Whether a net has the clock's name.
fn is_clock(body: &Module, clock: &Option<Name>, net: usize) -> bool
    requires { net < length body.now.nets }
    ensures { result ≡ is_clock_net body.now clock.now net }
{
    match clock {
        Some(name) => *body.nets.item(net) == *name,
        None => false,
    }
}
