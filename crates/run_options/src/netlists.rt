//! How a netlist is read.
use sdcv_base::{Name, Seq};

/// What is cut out of a netlist that is read wide: its top module goes by this name, where one is given, and else it is the
/// only module that no module instantiates; cells whose references match one of these patterns are cut out, where they can't be
/// modelled; and where a clock is given by its name, registers and clock gates that it doesn't come to are cut out too.
#[derive(Drop)]
pub struct Cutting {
    pub top: Option<Name>,
    pub free: Seq<Name>,
    pub clock: Option<Name>,
}

/// How the text of a netlist is read: by the rules of each run, or wide, with some more forms, and cells that are cut out.
#[derive(Drop)]
pub enum NetlistForm {
    Narrow,
    Wide(Cutting),
}
