//! The grammar of structural Verilog (IEEE 1364-2005, annex A): from a text to the declarations of its modules.
//!
//! A text is any number of modules, each with its ports, nets, assignments, gate primitives and instances in the order of the
//! text. Nothing is looked up: whether names are declared, and once, and what their widths are, is left to the crate above.
//! `read_modules` is the call to read first.
#![tactic(auto)]

mod assigns;
mod declarations;
mod exprs;
mod insts;
mod items;
mod lists;
mod modules;
mod nets;
mod parts;
mod ports;
mod prims;

pub use declarations::{
    AssignDecl, ConnDecl, Head, InstDecl, ItemDecl, ModuleDecl, NetKind, Part, PartDecl, PortDecl,
    PrimDecl, Range, Select, Spelled, TermDecl,
};
pub use modules::read_modules;
pub use netlist_types::Dir;
