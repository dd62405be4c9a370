//! The netlist that a Verilog text is (IEEE 1364-2005, structural): its modules with their nets by number.
//!
//! `read_verilog` is the call to read first. The grammar is `verilog_syntax`'s, and what the names of a module stand for is
//! `verilog_scope`'s; here expressions become wires, and the widths of the two sides of connections, terminals and
//! assignments are compared. Nets that stand in no port and in no item are left out: a wide bus costs what is used of it.
//! Cells are not looked up: that is left to linking.
#![tactic(auto)]

mod copies;
mod hierarchies;
mod insts;
mod items;
mod modules;
mod numbers;
mod pins;
mod prims;
mod sources;
mod spreads;
mod uses;
mod wires;

pub use netlist_types::{Conn, Dir, Item, Module, Port, PrimKind, Source, Wire};
pub use sources::read_verilog;
pub use verilog_scope::VerFault;
