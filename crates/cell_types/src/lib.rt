//! Cells of a library by what they compute, and the cells that are known without a file.
//!
//! Read `libraries.rt` first, the values that a reader of libraries makes and a linker takes: a cell is combinational, a
//! rising-edge flop, a clock gate, or not modelled (`Other`). `builtin` gives the cells that the program knows without a file, and
//! `Library::find` looks one up by its name. How a Liberty text says what a cell computes is left to the crate above.
#![tactic(auto)]

mod builtin_cells;
mod builtin_flops;
mod builtin_gates;
mod builtin_parts;
mod faults;
mod libraries;

pub use builtin_cells::builtin;
pub use faults::LibFault;
pub use libraries::{Cell, CellKind, CombOut, Flop, FlopOut, GateCell, Keeps, Library, OtherCell};
