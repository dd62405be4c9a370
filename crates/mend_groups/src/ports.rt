//! The bits of ports among a design's inputs and outputs.
ghost use Rattle.std.specs.Prelude.{◌≡◌};
ghost use Rattle.mend_groups.specs.Ports as spec;

use net_model::{End, Start};

/// How many bits of input ports and of output ports a design has. They are its first inputs and outputs: free nets come after those,
/// and sinks after these.
#[derive(Clone, Copy)]
pub struct Ports {
    pub inputs: usize,
    pub outputs: usize,
}

/// Ends that one command names: registers, bits of output ports, or sinks.
#[derive(Clone, Copy)]
pub enum EndClass {
    Regs,
    Ports,
    Sinks,
}

/// Whether a command can name the start: a free net's pin is no startpoint of an analyser.
pub(crate) fn is_named_start(ports: Ports, start: Start) -> bool
    ensures { result ≡ spec.is_named_start ports start }
{
    match start {
        Start::Reg(_) => true,
        Start::Input(input) => input < ports.inputs,
    }
}

pub(crate) fn class_of(ports: Ports, end: End) -> EndClass
    ensures { result ≡ spec.class_of ports end }
{
    match end {
        End::Reg(_) => EndClass::Regs,
        End::Output(output) => output_class(ports, output),
    }
}

fn output_class(ports: Ports, output: usize) -> EndClass
    ensures { result ≡ spec.output_class ports output }
{
    if output < ports.outputs {
        EndClass::Ports
    } else {
        EndClass::Sinks
    }
}

/// Whether both are one class.
pub fn is_end_class(a: EndClass, b: EndClass) -> bool
    ensures { result ≡ spec.is_end_class a b }
{
    match (a, b) {
        (EndClass::Regs, EndClass::Regs)
        | (EndClass::Ports, EndClass::Ports)
        | (EndClass::Sinks, EndClass::Sinks) => true,
        _ => false,
    }
}
