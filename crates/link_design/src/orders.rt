//! The order in which gates are settled.
ghost use Rattle.std.specs.Prelude.{◌≡◌, ◌<◌, ℕ, length, map, slice_get, Some, Ok, IfOk, IfErr, OnOk};
ghost use Rattle.net_model.specs.Netlist.{AllBelow};
ghost use Rattle.net_model.specs.declared.netlist.Gate.{Gate};
ghost use Rattle.graph_order.specs.Orders.{order_of};
ghost use Rattle.link_defs.specs.Circuits.{IsOnCycle};
ghost use Rattle.link_defs.specs.Designs.{gate_needs};
ghost use Rattle.link_design.specs.Orders.{IsWired, IsGateOrder, IsLoop, AreReadsBelow, need_by, row_needs};

use crate::faults::CircuitFault;
use graph_order::{OrderFault, order_of};
use net_model::Gate;
use sdcv_base::Seq;
use std::alloc::{AllocError, Global};

/// The places of the gates in an order in which each comes after those that drive what it reads.
pub fn gate_order(
    alloc: Global,
    gates: &Seq<Gate>,
    sources: &Seq<usize>,
    row: &Seq<usize>,
) -> Result<Seq<usize>, CircuitFault>
    requires { IsWired gates.now sources.now row.now }
    ensures is { IfOk result (λ order. order_of (gate_needs gates.now) ≡ Ok order) }
    ensures ok { IfOk result (IsGateOrder gates.now) }
    ensures none { OnOk result ((net : ℕ) → IsOnCycle gates.now net → ⊥) }
    ensures err { IfErr result (IsLoop gates.now) }
{
    let needs = gate_needs(alloc, gates, sources.len(), row)?;
    match order_of(alloc, &needs) {
        Ok(order) => Ok(order),
        Err(OrderFault::Loop(place)) => Err(CircuitFault::Loop(out_at(gates, place))),
        Err(OrderFault::Memory) => Err(CircuitFault::Memory),
    }
}

/// For each gate the places of the gates that drive what it reads.
fn gate_needs(
    alloc: Global,
    gates: &Seq<Gate>,
    sources: usize,
    row: &Seq<usize>,
) -> Result<Vec<Seq<usize>>, AllocError>
    requires { AreReadsBelow gates.now (length row.now) }
    ensures { IfOk result (λ needs. needs.items ≡ row_needs gates.now sources row.now) }
{
    let mut needs = Vec::new(alloc);
    for gate in gates.as_slice() {
        needs.push(needs_of(alloc, gate.ins.as_slice(), gates.len(), sources, row)?)?;
    }
    Ok(needs)
}

/// The places of the gates that drive these nets.
fn needs_of(
    alloc: Global,
    ins: &[usize],
    count: usize,
    sources: usize,
    row: &Seq<usize>,
) -> Result<Seq<usize>, AllocError>
    requires { AllBelow (length row.now) ins.now }
    ensures { IfOk result (λ needs. needs ≡ map (need_by count sources row.now) ins.now) }
{
    let mut needs = Seq::new(alloc);
    for net in ins {
        needs.push(need_by(count, sources, row, *net))?;
    }
    Ok(needs)
}

/// The net that the gate at a place drives.
fn out_at(gates: &Seq<Gate>, place: usize) -> usize
    requires { place < length gates.now }
    ensures { (g : Gate) → slice_get gates.now place ≡ Some g → result ≡ g.out }
{
    gates.item(place).out
}

/// The place of the gate that drives the net, and the number of the gates where none does.
#[tactic(auto, unfolding(crate::specs::Orders::need_by))]
fn need_by(count: usize, sources: usize, row: &Seq<usize>, net: usize) -> usize
    requires { net < length row.now }
    ensures { result ≡ need_by count sources row.now net }
{
    let driver = row.at(net);
    if driver < sources {
        count
    } else {
        driver - sources
    }
}
