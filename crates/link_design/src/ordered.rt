//! The gates of a circuit in an order in which they can be settled.
ghost use Rattle.std.specs.Prelude.{IfOk, IfErr};
ghost use Rattle.link_design.specs.Faults.{IsCause};
ghost use Rattle.link_design.specs.Lawful.{IsLawfulCircuit};
ghost use Rattle.link_design.specs.Made.{IsOrdered};

use crate::faults::CircuitFault;
use crate::lists::{all_reads, all_sources, gates_of, marks_of, with_gate_nets};
use crate::marks::first_undriven;
use crate::orders::gate_order;
use crate::rows::driver_row;
use link_defs::Circuit;
use net_model::Gate;
use sdcv_base::Seq;
use std::alloc::Global;

/// All gates in the order of the parts, for each whether it is a buffer's or an inverter's, and their places in an order
/// in which each comes after those that drive what it reads.
#[derive(Drop)]
pub(crate) struct OrderedGates {
    pub(crate) gates: Seq<Gate>,
    pub(crate) marks: Seq<bool>,
    pub(crate) order: Seq<usize>,
}

/// The gates in their order. Refuses a net of two drivers, one that is read and has none, and a cycle of gates.
pub(crate) fn ordered_gates(alloc: Global, circuit: &Circuit) -> Result<OrderedGates, CircuitFault>
    requires { IsLawfulCircuit circuit.now }
    ensures ok { IfOk result (IsOrdered circuit.now) }
    ensures err { IfErr result (IsCause circuit.now) }
{
    let gates = gates_of(alloc, circuit)?;
    let marks = marks_of(alloc, circuit)?;
    let sources = all_sources(alloc, circuit)?;
    let drivers = with_gate_nets(alloc, &sources, &gates)?;
    let row = driver_row(alloc, &drivers, circuit.nets)?;
    let reads = all_reads(alloc, circuit)?;
    if let Some(net) = first_undriven(&row, drivers.len(), reads.as_slice()) {
        return Err(CircuitFault::Undriven(net));
    }
    let order = gate_order(alloc, &gates, &sources, &row)?;
    Ok(OrderedGates {
        gates,
        marks,
        order,
    })
}
