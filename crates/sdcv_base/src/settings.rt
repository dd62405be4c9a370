//! Values that are set from outside a netlist.

use crate::names::Name;

/// A value for a bit of an input port of the top module, which is named as its net (`x[1]`).
#[derive(Drop)]
pub struct Setting {
    pub name: Name,
    pub value: bool,
}
