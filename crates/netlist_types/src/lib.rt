//! A netlist of modules, as a reader gives it and as linking takes it: its modules with their ports, and what stands in
//! them, with nets by number.
//!
//! `Source` is the type to read first; `IsLawful` of `specs/Lawful.antt` says which sources can be linked. How a text is
//! read is left to the crates of Verilog, and what a source means to linking.
#![tactic(auto)]

mod faults;
mod gates;
mod sources;

pub use faults::VerFault;
pub use gates::PrimKind;
pub use sources::{Conn, Dir, Item, Module, Port, Source, Wire};
