//! Cells of a library: what each computes from its input pins, as a Liberty file says it.
//!
//! A cell is combinational, a rising-edge flop, a clock gate, or not modelled (`Other`), by rules that are total: a cell
//! that can't be modelled never refuses its text, and is refused only where a design uses it. `read_lib` is the call to read first. The
//! values that it makes, and the cells that are known without a file, are those of `cell_types`.
#![tactic(auto)]

mod cells;
mod combs;
mod flaws;
mod flops;
mod gates;
mod misfits;
mod others;
mod pins;
mod readers;
mod scopes;
mod shapes;
mod values;

pub use cell_types::{
    Cell, CellKind, CombOut, Flop, FlopOut, GateCell, Keeps, LibFault, Library, OtherCell, builtin,
};
pub use readers::read_lib;
