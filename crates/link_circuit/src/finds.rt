//! The instance of a net, and the leaf of a register or a clock gate.
ghost use Rattle.std.specs.Prelude.{◌≡◌, ◌==◌, ◌<◌, All, length, IfSome};
ghost use Rattle.std.specs.List.{position};
ghost use Rattle.link_items.specs.declared.made.LeafPlace.{LeafPlace as LeafRecord};
ghost use Rattle.link_circuit.specs.Names.{is_there, has_net as has, is_clocked as clocked, is_leaf_on as on};

use link_defs::Part;
use link_items::{Instance, LeafPlace};
use sdcv_base::Seq;

/// The first place at which a net stands, if any.
pub(crate) fn place_in(nets: &[usize], net: usize) -> Option<usize>
    ensures { result ≡ position (λ n. n == net) nets.now }
{
    nets.iter().position(|n| *n == net)
}

/// Whether an instance has a net.
fn has_net(instance: &Instance, net: usize) -> bool
    ensures { result ≡ has net instance.now }
{
    place_in(instance.nets.as_slice(), net).is_some()
}

/// The first instance that has a net, if any.
pub(crate) fn instance_with(scopes: &[Instance], net: usize) -> Option<usize>
    ensures { result ≡ position (has net) scopes.now }
{
    scopes.iter().position(|instance| has_net(instance, net))
}

/// Whether a part is a register or a clock gate on this clock.
fn is_clocked(part: &Part, net: usize) -> bool
    ensures { result ≡ clocked net part.now }
{
    match part {
        Part::Comb { .. } => false,
        Part::Flop { clock, .. } => *clock == net,
        Part::Gate { clock, .. } => *clock == net,
    }
}

/// Whether the part of a leaf is.
fn is_leaf_on(parts: &Seq<Part>, leaf: &LeafPlace, net: usize) -> bool
    ensures { result ≡ on net parts.now leaf.now }
{
    match parts.as_slice().get(leaf.part) {
        Some(part) => is_clocked(part, net),
        None => false,
    }
}

/// The first leaf that is a register or a clock gate on this clock, if any.
pub(crate) fn leaf_on(parts: &Seq<Part>, leaves: &[LeafPlace], net: usize) -> Option<usize>
    ensures { result ≡ position (on net parts.now) leaves.now }
{
    leaves.iter().position(|leaf| is_leaf_on(parts, leaf, net))
}
