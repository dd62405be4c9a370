//! The refusals of a circuit by name.
ghost use Rattle.std.specs.Prelude.{◌≡◌, ◌<◌, ◌≤◌, ℕ, List, Contains, Some, length, map, flat_map, IfOk};
ghost use Rattle.link_design.specs.Faults.{IsCause};
ghost use Rattle.link_defs.specs.declared.cuts.CutItem.{CutItem};
ghost use Rattle.link_defs.specs.Circuits.{clock_of as clock_pin};
ghost use Rattle.link_defs.specs.Faults.{IsFlatCause, most_inputs};
ghost use Rattle.link_defs.specs.Flatten.{flat_of, scope_names};
ghost use Rattle.link_defs.specs.Judged.{FlatNetlist};
ghost use Rattle.link_items.specs.Items.{module_at, scope_of};
ghost use Rattle.link_circuit.specs.Flats.{AreFine, AreScopes};
ghost use Rattle.link_circuit.specs.Names.{HasNet, IsLeftBelow, IsNameOn, HasLeafOn};

use crate::circuits::FlatCircuit;
use crate::finds::{instance_with, leaf_on, place_in};
use link_defs::Part;
use link_design::CircuitFault;
use link_items::{Instance, LeafPlace, Netlist, full_name};
use linked_types::{LinkFault, LinkOptions};
use sdcv_base::{Name, Seq};
use std::alloc::{AllocError, Global};

/// The first full name of a net of an instance.
pub fn net_name(
    alloc: Global,
    netlist: &Netlist,
    scopes: &Seq<Instance>,
    net: usize,
) -> Result<Name, AllocError>
    requires scopes { AreScopes netlist.now.source.now scopes.now }
    requires net { HasNet (map (scope_of netlist.now.source.now) scopes.now) net }
    ensures { IfOk result (λ name. Contains (flat_map scope_names (map (scope_of netlist.now.source.now) scopes.now)) (name, net)) }
{
    let at = instance_with(scopes.as_slice(), net).unwrap();
    let instance = scopes.item(at);
    let place = place_in(instance.nets.as_slice(), net).unwrap();
    let names = &netlist.source.modules.item(instance.body).nets;
    let name = full_name(alloc, &instance.prefix, names.item(place))?;
    Ok(name)
}

/// The net of the clock pin of a register or a clock gate.
fn clock_of(part: &Part) -> usize
    ensures { (clock : ℕ) → clock_pin part.now ≡ Some clock → result ≡ clock }
{
    match part {
        Part::Comb { .. } => 0,
        Part::Flop { clock, .. } => *clock,
        Part::Gate { clock, .. } => *clock,
    }
}

/// The name of the first register or clock gate on that clock.
fn reg_name(
    alloc: Global,
    parts: &Seq<Part>,
    leaves: &Seq<LeafPlace>,
    place: usize,
) -> Result<Name, AllocError>
    requires { HasLeafOn parts.now leaves.now place }
    ensures { IfOk result (IsNameOn parts.now leaves.now place) }
{
    let clock = clock_of(parts.item(place));
    let at = leaf_on(parts, leaves.as_slice(), clock).unwrap();
    let name = leaves.item(at).name.copy(alloc)?;
    Ok(name)
}

/// The refusal of the netlist below the module at a place that is judged, or of its circuit with further inputs and outputs, with
/// the full name of what it speaks of: a net by its first name, a register or a clock gate that is not on the clock by the first one on the same net.
pub fn named_fault(
    alloc: Global,
    netlist: &Netlist,
    top: usize,
    options: &LinkOptions,
    c: &FlatCircuit,
    fault: CircuitFault,
) -> Result<LinkFault, AllocError>
    requires top { top < length netlist.now.source.now.modules }
    requires circuit { (items : List CutItem) × (j : FlatNetlist) × IsLeftBelow (record { source = netlist.now.source.now; items = items })
        netlist.now.library.now (module_at netlist.now.source.now top) options.now j c.now }
    requires fine { AreFine netlist.now.source.now netlist.now.library.now
        (flat_of netlist.now.source.now netlist.now.library.now (module_at netlist.now.source.now top)) }
    requires few { length c.now.circuit.inputs ≤ most_inputs options.now.wide }
    requires cause { IsCause c.now.circuit fault }
    ensures { IfOk result (λ f. (items : List CutItem) (j : FlatNetlist) → IsLeftBelow (record { source = netlist.now.source.now; items = items })
        netlist.now.library.now (module_at netlist.now.source.now top) options.now j c.now
        → IsFlatCause netlist.now.source.now netlist.now.library.now options.now (module_at netlist.now.source.now top)
        (flat_of netlist.now.source.now netlist.now.library.now (module_at netlist.now.source.now top)) j.found c.now.circuit f) }
{
    let scopes = &c.scopes;
    match fault {
        CircuitFault::Undriven(net) => {
            Ok(LinkFault::Undriven(net_name(alloc, netlist, scopes, net)?))
        }
        CircuitFault::ManyDrivers(net) => {
            Ok(LinkFault::ManyDrivers(net_name(alloc, netlist, scopes, net)?))
        }
        CircuitFault::Loop(net) => Ok(LinkFault::Loop(net_name(alloc, netlist, scopes, net)?)),
        CircuitFault::NotTheClock(place) => {
            let name = reg_name(alloc, &c.circuit.parts, &c.leaves, place)?;
            Ok(LinkFault::NotTheClock(name))
        }
        CircuitFault::ClockAsData(net) => {
            Ok(LinkFault::ClockAsData(net_name(alloc, netlist, scopes, net)?))
        }
        CircuitFault::Limit(kind, number) => Ok(LinkFault::Limit(kind, number)),
        CircuitFault::Memory => Err(AllocError),
    }
}
