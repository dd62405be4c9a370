//! What a user is told of a netlist and a script beside the exceptions.
use sdcv_base::{Name, Seq};

/// So many commands of this name are passed over.
#[derive(Drop)]
pub struct Skipped {
    pub name: Name,
    pub count: u64,
}

/// A command that a timing analyser obeys, and of whose effect no verdict speaks: the line of its first byte, from 1, and its
/// name.
#[derive(Drop)]
pub struct Unjudged {
    pub line: u64,
    pub name: Name,
}

/// So many cells of this reference are cut out of the design; a path may lead through them where they are open.
#[derive(Drop)]
pub struct CutCells {
    pub cell: Name,
    pub count: u64,
    pub open: bool,
}

/// What is told of a netlist and a script: the top module and the clock, where they are asked for by their names; which cells are
/// cut out, by reference; which commands are passed over, where any may be; which are not judged; and how many false paths take hold checks
/// off that are not judged.
#[derive(Drop)]
pub struct Notices {
    pub top: Option<Name>,
    pub clock: Option<Name>,
    pub cuts: Seq<CutCells>,
    pub skipped: Option<Seq<Skipped>>,
    pub unjudged: Seq<Unjudged>,
    pub hold_commands: u64,
}
