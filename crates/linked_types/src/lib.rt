//! A linked design as a value: the design with the names of its cells, ports and nets, what is set from outside, and why
//! there is none.
//!
//! The types alone, with what may be relied on of their values (`specs/Usable.antt`): how a netlist is linked is left to the
//! crates that link it, so that selection, views and monitors stand on the value and not on its maker. `Linked` is the
//! type to read first.
#![tactic(auto)]

mod faults;
mod names;
mod options;

pub use faults::LinkFault;
pub use names::{CellName, CutName, Linked, Names, NetName, PinName, PinRole, PortName};
pub use options::LinkOptions;
