//! How the texts of a run are read.
use crate::netlists::NetlistForm;
use sdcv_base::{Name, Seq};

/// How the text of a script is read: by the rules of each run, or wide, with some more forms, and with commands of these names
/// passed over that have no reading.
#[derive(Drop)]
pub enum ScriptForm {
    Narrow,
    Wide(Seq<Name>),
}

/// How a netlist and a script are read.
#[derive(Drop)]
pub struct Forms {
    pub netlist: NetlistForm,
    pub script: ScriptForm,
}
