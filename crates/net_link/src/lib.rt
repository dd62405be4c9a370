//! The design of a hierarchy of modules over a library of cells, with all its names.
//!
//! Read `links.rt` first: `link` is the call. What a design and its names are, and why there is none, `link_defs` says;
//! `link_circuit` makes the flat netlist and its circuit, `link_design` the design of the circuit. Here these stages are
//! joined, and what they refuse is told by its full name.
//!
//! - `ports.rt`: the ports of the top module and what is set at them: its data inputs and outputs by name, and the inputs that
//!   are given a value, by their places (`specs/Ports.antt`, in the words of `link_defs`, also why they are refused).
//! - `limits.rt`: a module of more inputs or outputs than a design may have is refused before they are named.
//! - `judged.rt`: the netlist that is judged: with one clock of several what that clock does not come to is cut out (`specs/Judged.antt`).
//! - `left.rt`: what is left of the circuit where cells are cut out of it, with what was found of these (`specs/Left.antt`), and
//!   why they can't be cut out; where there are none, the circuit goes through as it is.
//! - `designs.rt`: from a circuit and its design to the design with its clock gates: in which order these are named, which nets
//!   are their enables, behind which of them each register stands, and which number each net has in the rewritten design, where
//!   the output of a clock gate has that of its enable (`specs/Made.antt`, by `IsGatedOf` of `link_defs`). A design without
//!   clock gates is its own. What the rewritten one captures is the law of `link_gates`; how it is rewritten, `icg_rewrite`'s.
//! - `cells.rt`: for each leaf of the flat netlist its name, its register, the nets that it drives and its pins, by the design's
//!   numbers (`specs/Places.antt`). Whether two leaves have one name is left to `link_tops`.
#![tactic(auto)]

mod cells;
mod circuits;
mod designs;
mod enables;
mod gate_nets;
mod given;
mod inputs;
mod judged;
mod left;
mod limits;
mod links;
mod nets;
mod numbers;
mod orders;
mod outs;
mod pins;
mod ports;
mod rows;

pub use judged::JudgedCircuit;
pub use left::{CutOut, LeftCircuit};
pub use link_tops::top_inputs;
pub use linked_types::{
    CellName, LinkFault, LinkOptions, Linked, Names, NetName, PinName, PinRole, PortName,
};
pub use links::link;
