//! The names of a design. Nets, gates, registers and ports are those of the design, by number.
ghost use Rattle.std.specs.Prelude.{◌≡◌, ◌<◌, IfOk, Some, length, slice_get};
ghost use Rattle.linked_types.specs.Inputs as spec;

use net_model::{Design, PinRef};
use sdcv_base::{Name, Seq};
use std::alloc::{AllocError, Global};

/// What a pin of a cell is: a clock pin, the pins of gates or registers that read with it, or the net that it drives. A pin
/// of a cell that is cut out of the design is the source of a data input, by the input's number, or a sink, which reads for
/// an output of the design, by the output's number.
#[derive(Drop)]
pub enum PinRole {
    Clock,
    Load(Seq<PinRef>),
    Drive(usize),
    Source(usize),
    Sink(usize),
}

/// A pin by its own name (`A`), and what it is.
#[derive(Drop)]
pub struct PinName {
    pub name: Name,
    pub role: PinRole,
}

/// A leaf instance or a named primitive by its full name (`u1/g`), with its register and the nets that it drives.
#[derive(Drop)]
pub struct CellName {
    pub name: Name,
    pub reg: Option<usize>,
    pub outs: Seq<usize>,
    pub pins: Seq<PinName>,
}

/// A bit of a port by its net's name (`x[1]`), and the port's own name where it is a bus.
#[derive(Drop)]
pub struct PortName {
    pub name: Name,
    pub bus: Option<Name>,
}

/// A full name of a net (`u1/a`), and the net.
#[derive(Drop)]
pub struct NetName {
    pub name: Name,
    pub net: usize,
}

/// The cells of one reference that are cut out of the design: the reference, how many there are, and whether a path may lead
/// through them.
pub struct CutName {
    pub cell: Name,
    pub count: usize,
    pub open: bool,
}

impl Drop for CutName {
    fn drop(self) {
        let CutName {
            cell: _cell,
            count: _,
            open: _,
        } = self;
    }
}

/// The cells in the order in which flattening meets them, the data inputs and the outputs, the full names of nets, each
/// once, and the clock's bit of an input port.
///
/// The data inputs are the bits of `ins` in port order, then those that cut cells drive (`free`, by a pin each), then those
/// that stand for assumed values (`assumed`). The outputs are the bits of `outs` in port order, then what cut cells read
/// (`sinks`, by a pin each). `cuts` has the cut cells, by reference.
#[derive(Drop)]
pub struct Names {
    pub cells: Seq<CellName>,
    pub ins: Seq<PortName>,
    pub outs: Seq<PortName>,
    pub nets: Seq<NetName>,
    pub clock: Option<PortName>,
    pub free: Seq<Name>,
    pub sinks: Seq<Name>,
    pub cuts: Seq<CutName>,
    pub assumed: Seq<Name>,
}

impl Names {
    /// The names of a design in which nothing is cut out and nothing is assumed.
    pub fn whole(
        alloc: Global,
        cells: Seq<CellName>,
        ins: Seq<PortName>,
        outs: Seq<PortName>,
        nets: Seq<NetName>,
        clock: Option<PortName>,
    ) -> Names
        ensures { result ≡ spec.whole_names cells ins outs nets clock }
    {
        Names {
            cells,
            ins,
            outs,
            nets,
            clock,
            free: Seq::new(alloc),
            sinks: Seq::new(alloc),
            cuts: Seq::new(alloc),
            assumed: Seq::new(alloc),
        }
    }

    /// How many data inputs have names.
    pub fn input_count(&self) -> Result<usize, AllocError>
        ensures { IfOk result (λ count. count ≡ length (spec.input_names self.now)) }
    {
        let ports = self.ins.len();
        let driven = ports.checked_add(self.free.len()).ok_or(AllocError)?;
        driven.checked_add(self.assumed.len()).ok_or(AllocError)
    }

    /// The name of a data input, by its number.
    pub fn input(&self, number: usize) -> &Name
        requires { number < length (spec.input_names self.now) }
        ensures { slice_get (spec.input_names self.now) number ≡ Some result.now }
    {
        let (ports, driven) = (self.ins.len(), self.free.len());
        if number < ports {
            &self.ins.item(number).name
        } else if number - ports < driven {
            self.free.item(number - ports)
        } else {
            self.assumed.item(number - ports - driven)
        }
    }

    /// The name of an output, by its number.
    pub fn output(&self, number: usize) -> &Name
        requires { number < length (spec.output_names self.now) }
        ensures { slice_get (spec.output_names self.now) number ≡ Some result.now }
    {
        let ports = self.outs.len();
        if number < ports {
            &self.outs.item(number).name
        } else {
            self.sinks.item(number - ports)
        }
    }
}

/// A design and its names.
#[derive(Drop)]
pub struct Linked {
    pub design: Design,
    pub names: Names,
}
