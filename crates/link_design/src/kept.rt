//! The gates that stand in the design, in their order.
ghost use Rattle.std.specs.Prelude.{◌≡◌, ◌++◌, ◌<◌, IfOk, length, filter, map};
ghost use Rattle.net_model.specs.Netlist.{AllBelow, gate_nets};
ghost use Rattle.link_defs.specs.Designs.{gate_at};
ghost use Rattle.link_design.specs.Kept.{is_kept};

use crate::marks::is_marked;
use crate::ordered::OrderedGates;
use crate::trees::is_tree_gate;
use net_model::Gate;
use sdcv_base::Seq;
use std::alloc::{AllocError, Global};

/// The places of the gates that are none of the clock tree's, in the order of all gates.
pub(crate) fn kept_places(
    alloc: Global,
    ordered: &OrderedGates,
    tree: &Seq<bool>,
) -> Result<Seq<usize>, AllocError>
    requires { AllBelow (length ordered.now.gates) ordered.now.order }
    ensures { IfOk result (λ kept. kept ≡ filter (is_kept tree.now ordered.now.gates ordered.now.marks) ordered.now.order) }
{
    let mut kept = Seq::new(alloc);
    for place in ordered.order.as_slice() {
        if is_kept(ordered, tree, *place) {
            kept.push(*place)?;
        }
    }
    Ok(kept)
}

/// Whether the gate at a place is none of the clock tree's.
fn is_kept(ordered: &OrderedGates, tree: &Seq<bool>, place: usize) -> bool
    requires { place < length ordered.now.gates }
    ensures { result ≡ is_kept tree.now ordered.now.gates ordered.now.marks place }
{
    let buffer = is_marked(&ordered.marks, place);
    !is_tree_gate(tree, buffer, gate_at(&ordered.gates, place))
}

/// The gate at a place.
pub(crate) fn gate_at(gates: &Seq<Gate>, place: usize) -> &Gate
    requires { place < length gates.now }
    ensures { result.now ≡ gate_at gates.now place }
{
    gates.item(place)
}

/// These nets, and those that the gates at some places drive.
pub(crate) fn with_kept_nets(
    alloc: Global,
    sources: &Seq<usize>,
    gates: &Seq<Gate>,
    kept: &Seq<usize>,
) -> Result<Seq<usize>, AllocError>
    requires { AllBelow (length gates.now) kept.now }
    ensures { IfOk result (λ nets. nets ≡ sources.now ++ gate_nets (map (gate_at gates.now) kept.now)) }
{
    let mut nets = sources.copy(alloc)?;
    for place in kept.as_slice() {
        nets.push(gate_at(gates, *place).out)?;
    }
    Ok(nets)
}
