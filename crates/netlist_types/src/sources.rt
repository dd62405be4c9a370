//! Netlists as callers see them.

use crate::gates::PrimKind;
use sdcv_base::{Name, Seq};

/// The direction of a port. Through an `Inout` port a module may read and drive. A bit of such a port of the top module is
/// an input bit of the design.
#[derive(Clone, Copy, PartialEq, Eq)]
pub enum Dir {
    Input,
    Output,
    Inout,
}

/// What a pin or an assignment reads: a constant, or a net of the module by its number.
#[derive(Clone, Copy, PartialEq, Eq)]
pub enum Wire {
    Const(bool),
    Net(usize),
}

/// A port and the numbers of its nets, the most significant bit first. A `bus` was declared with a range.
#[derive(Drop)]
pub struct Port {
    pub name: Name,
    pub dir: Dir,
    pub bits: Seq<usize>,
    pub bus: bool,
}

/// The connection of a pin, the most significant bit first. An open one has no wires.
#[derive(Drop)]
pub struct Conn {
    pub pin: Name,
    pub wires: Option<Seq<Wire>>,
}

/// What stands in a module: an instance of a cell or module, a gate primitive, or one bit of an assignment.
#[derive(Drop)]
pub enum Item {
    Inst {
        cell: Name,
        name: Name,
        conns: Seq<Conn>,
    },
    Prim {
        kind: PrimKind,
        name: Option<Name>,
        outs: Seq<usize>,
        ins: Seq<Wire>,
    },
    Copy {
        to: usize,
        from: Wire,
    },
}

/// A module. Its nets are single bits, and the place of a name in `nets` is the number of the net: they are numbered
/// in the order in which their names first stand in the module's text.
pub struct Module {
    pub name: Name,
    pub ports: Seq<Port>,
    pub nets: Seq<Name>,
    pub items: Seq<Item>,
}

impl Drop for Module {
    fn drop(self) {
        let Module {
            name: _name,
            ports: _ports,
            nets: _nets,
            items: _items,
        } = self;
    }
}

/// The modules of a text in their order.
pub struct Source {
    pub modules: Seq<Module>,
}

impl Drop for Source {
    fn drop(self) {
        let Source { modules: _modules } = self;
    }
}
