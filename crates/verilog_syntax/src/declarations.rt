//! What a text declares, in the names that stand in it. Offsets count bytes of the whole text from 0.

use netlist_types::{Dir, PrimKind};
use sdcv_base::{Name, Seq};
use texts::Named;

/// The numbers of a bus's first and last bit. They rise or fall, or are one number.
#[derive(Clone, Copy, PartialEq, Eq)]
pub struct Range {
    pub msb: u16,
    pub lsb: u16,
}

/// A name and where it begins in the text. An escaped one begins at its backslash.
#[derive(Drop)]
pub struct Spelled {
    pub offset: usize,
    pub name: Name,
}

/// Which bits of a name are meant, by their numbers.
#[derive(Clone, Copy, PartialEq, Eq)]
pub enum Select {
    All,
    Bit(u16),
    Slice(u16, u16),
}

/// What an expression is made of. The bits of a constant stand most significant first.
#[derive(Drop)]
pub enum Part {
    Net { name: Name, select: Select },
    Bits(Seq<bool>),
}

/// A part and where it begins.
#[derive(Drop)]
pub struct PartDecl {
    pub offset: usize,
    pub part: Part,
}

/// An expression and where it begins: its parts, most significant first. Braces within braces leave no trace.
#[derive(Drop)]
pub struct TermDecl {
    pub offset: usize,
    pub parts: Seq<PartDecl>,
}

/// A connection of a pin by its name, from its `.` on. One without parts is open.
#[derive(Drop)]
pub struct ConnDecl {
    pub offset: usize,
    pub pin: Name,
    pub parts: Option<Seq<PartDecl>>,
}

/// A port with its direction and range, whether they stand at its name or at one before it.
#[derive(Drop)]
pub struct PortDecl {
    pub dir: Dir,
    pub range: Option<Range>,
    pub name: Spelled,
}

/// The port list of a module. One that is absent or empty is `Names` of none.
#[derive(Drop)]
pub enum Head {
    Names(Seq<Spelled>),
    Ports(Seq<PortDecl>),
}

/// What a declaration makes of its nets.
#[derive(Clone, Copy, Debug, PartialEq, Eq)]
pub enum NetKind {
    Wire,
    Supply0,
    Supply1,
}

/// An instance with its connections in the order of the text.
#[derive(Drop)]
pub struct InstDecl {
    pub name: Name,
    pub conns: Seq<ConnDecl>,
}

/// An instance of a gate primitive. No constant stands among its outputs.
#[derive(Drop)]
pub struct PrimDecl {
    pub name: Option<Name>,
    pub outs: Seq<TermDecl>,
    pub ins: Seq<TermDecl>,
}

/// An assignment. No constant stands in its target.
#[derive(Drop)]
pub struct AssignDecl {
    pub target: TermDecl,
    pub value: TermDecl,
}

/// An item of a module: one statement of the text.
#[derive(Drop)]
pub enum ItemDecl {
    Ports(Seq<PortDecl>),
    Nets {
        kind: NetKind,
        range: Option<Range>,
        names: Seq<Name>,
    },
    Assigns(Seq<AssignDecl>),
    Prims {
        kind: PrimKind,
        list: Seq<PrimDecl>,
    },
    /// Instances of the cell or module of this name.
    Insts {
        cell: Name,
        list: Seq<InstDecl>,
    },
}

/// A module, its items in the order of the text.
#[derive(Drop)]
pub struct ModuleDecl {
    pub name: Name,
    pub head: Head,
    pub items: Seq<ItemDecl>,
}

impl Named for Spelled {
    ghost named = { λ s. s.name };

    fn name(&self) -> &Name {
        &self.name
    }
}

impl Named for PortDecl {
    ghost named = { λ p. p.name.name };

    fn name(&self) -> &Name {
        &self.name.name
    }
}

/// A connection goes by its pin.
impl Named for ConnDecl {
    ghost named = { λ c. c.pin };

    fn name(&self) -> &Name {
        &self.pin
    }
}

impl Named for InstDecl {
    ghost named = { λ i. i.name };

    fn name(&self) -> &Name {
        &self.name
    }
}

impl Named for ModuleDecl {
    ghost named = { λ m. m.name };

    fn name(&self) -> &Name {
        &self.name
    }
}
