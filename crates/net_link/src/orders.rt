//! The order of the clock gates.
ghost use Rattle.std.specs.Prelude.{◌≡◌, ℕ, IfOk, Ok, length, map};
ghost use Rattle.net_model.specs.Netlist.{AllBelow};
ghost use Rattle.graph_order.specs.Needs.{IsOnCycle};
ghost use Rattle.graph_order.specs.Orders.{order_of};
ghost use Rattle.link_design.specs.Lawful.{IsLawfulCircuit};
ghost use Rattle.link_defs.specs.GateOrders.{IsGateOrderOf, if_any};
ghost use Rattle.net_link.specs.GateNets.{parts_of};
ghost use Rattle.net_link.specs.Rows.{IsClockTree, needs_by};

use crate::gate_nets::{GateNets, all_nets, in_order};
use crate::rows::{gate_row, place_above};
use graph_order::{OrderFault, order_of};
use link_defs::Circuit;
use sdcv_base::Seq;
use std::alloc::{AllocError, Global};

/// The clock gates of a circuit in an order in which each comes after the one above it.
pub(crate) fn ordered_nets(
    alloc: Global,
    circuit: &Circuit,
    above: &Seq<Option<usize>>,
) -> Result<Seq<GateNets>, AllocError>
    requires { IsClockTree circuit.now above.now }
    ensures { IfOk result (λ gates. IsGateOrderOf circuit.now (parts_of gates)) }
{
    let gates = all_nets(alloc, circuit)?;
    let row = gate_row(alloc, &gates, circuit.nets)?;
    let needs = gate_needs(alloc, above, &row, &gates)?;
    let places = places_in_order(alloc, &needs)?;
    in_order(alloc, &gates, &places)
}

/// Places in an order in which each comes after those that it needs, where none needs itself.
fn places_in_order(alloc: Global, needs: &[Seq<usize>]) -> Result<Seq<usize>, AllocError>
    requires { (place : ℕ) → IsOnCycle needs.now place → ⊥ }
    ensures is { IfOk result (λ places. order_of needs.now ≡ Ok places) }
    ensures below { IfOk result (AllBelow (length needs.now)) }
{
    match order_of(alloc, needs) {
        Ok(places) => Ok(places),
        Err(OrderFault::Memory) => Err(AllocError),
        Err(OrderFault::Loop(_)) => unreachable!(),
    }
}

/// For each clock gate the place of the one above it, if there is one.
fn gate_needs(
    alloc: Global,
    above: &Seq<Option<usize>>,
    row: &Seq<usize>,
    gates: &Seq<GateNets>,
) -> Result<Vec<Seq<usize>>, AllocError>
    ensures { IfOk result (λ needs. needs.items ≡ map (needs_by above.now row.now) gates.now) }
{
    let mut needs = Vec::new(alloc);
    for gate in gates.as_slice() {
        let place = place_above(above, row, gate.clock);
        needs.push(if_any(alloc, place)?)?;
    }
    Ok(needs)
}

/// The place, if there is one, as a list.
fn if_any(alloc: Global, place: Option<usize>) -> Result<Seq<usize>, AllocError>
    ensures { IfOk result (λ list. list ≡ if_any place) }
{
    match place {
        None => Ok(Seq::new(alloc)),
        Some(place) => Seq::one(alloc, place),
    }
}
