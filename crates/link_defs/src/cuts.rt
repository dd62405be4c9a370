//! What is cut out of a netlist.
use netlist_types::Source;
use sdcv_base::{Name, Seq};

/// Which way a pin of a cell that is cut out goes, as far as that is known.
#[derive(Clone, Copy, PartialEq, Eq)]
pub enum Way {
    In,
    Out,
    Either,
}

/// A pin of a cell that is cut out, by its own name (`A[1]`), and the net that it is connected to: of an instance in a module
/// a net of that module, of one in the flat netlist a flat net.
#[derive(Drop)]
pub struct CutPin {
    pub name: Name,
    pub way: Way,
    pub net: usize,
}

/// Why an instance can't be cut out: it is connected to a port of this name, which its module doesn't have, or a constant is
/// connected to this pin, which is an output.
#[derive(Drop)]
pub enum CutFault {
    Stray(Name),
    Tied(Name),
}

/// An instance that is cut out of a module: the module's name, its reference, its own name, and its pins in the order of the
/// text. It is `clocked` where it captures on whatever clock it stands.
#[derive(Drop)]
pub struct CutItem {
    pub module: Name,
    pub cell: Name,
    pub name: Name,
    pub clocked: bool,
    pub pins: Seq<CutPin>,
    pub fault: Option<CutFault>,
}

/// A cell that is cut out of the flat netlist, by its full name (`u1/m`).
#[derive(Drop)]
pub struct CutCell {
    pub cell: Name,
    pub name: Name,
    pub clocked: bool,
    pub pins: Seq<CutPin>,
    pub fault: Option<CutFault>,
}

/// A source without the instances that are cut out of its modules, and these.
#[derive(Drop)]
pub struct CutSource {
    pub source: Source,
    pub items: Seq<CutItem>,
}
