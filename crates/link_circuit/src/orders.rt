//! The order of modules.
ghost use Rattle.std.specs.Prelude.{◌≡◌, ◌<◌, ◌++◌, ℕ, List, length, map, slice_get, Some, IfOk, IfErr, OnOk};
ghost use Rattle.graph_order.specs.Orders.{IsRightOrder};
ghost use Rattle.link_defs.specs.Hierarchy.{refs, place_of_module, module_needs, IsRecursive};
ghost use Rattle.netlist_types.specs.declared.sources.Module.{Module as ModuleRecord};
ghost use Rattle.link_circuit.specs.Orders.{needs_in, IsOrderCause};

use graph_order::{OrderFault, order_of};
use link_items::Netlist;
use linked_types::LinkFault;
use netlist_types::{Item, Module};
use sdcv_base::{Name, Seq};
use std::alloc::{AllocError, Global};

/// The places of the modules in an order in which each comes after those that it has instances of. `Recursive` names a module
/// that contains itself.
pub fn module_order(alloc: Global, netlist: &Netlist) -> Result<Seq<usize>, LinkFault>
    ensures ok { IfOk result (IsRightOrder (module_needs netlist.now.source.now)) }
    ensures err { IfErr result (IsOrderCause netlist.now.source.now) }
    ensures none { OnOk result ((name : List ℕ) → IsRecursive netlist.now.source.now name → ⊥) }
{
    let needs = module_needs(alloc, netlist)?;
    match order_of(alloc, &needs) {
        Ok(order) => Ok(order),
        Err(OrderFault::Loop(place)) => {
            Err(LinkFault::Recursive(module_name(alloc, netlist, place)?))
        }
        Err(OrderFault::Memory) => Err(LinkFault::Memory),
    }
}

/// The name of the module at a place.
fn module_name(alloc: Global, netlist: &Netlist, place: usize) -> Result<Name, AllocError>
    requires { place < length netlist.now.source.now.modules }
    ensures { IfOk result (λ name. (m : ModuleRecord) × (slice_get netlist.now.source.now.modules place ≡ Some m) × (m.name ≡ name)) }
{
    netlist.source.modules.item(place).name.copy(alloc)
}

/// For each module the places of those that it has instances of.
fn module_needs(alloc: Global, netlist: &Netlist) -> Result<Vec<Seq<usize>>, AllocError>
    ensures { IfOk result (λ needs. needs.items ≡ module_needs netlist.now.source.now) }
{
    let mut needs = Vec::new(alloc);
    for body in netlist.source.modules.as_slice() {
        needs.push(needs_of(alloc, netlist, body)?)?;
    }
    Ok(needs)
}

/// The places of the modules that a module has instances of.
fn needs_of(alloc: Global, netlist: &Netlist, body: &Module) -> Result<Seq<usize>, AllocError>
    ensures { IfOk result (λ needs. needs ≡ needs_in netlist.now.source.now body.now) }
{
    let mut needs = Seq::new(alloc);
    for k in 0..body.items.len() {
        push_need(netlist, &mut needs, body.items.item(k))?;
    }
    Ok(needs)
}

/// Appends the place of the module that an item refers to, if it is an instance.
fn push_need(netlist: &Netlist, needs: &mut Seq<usize>, item: &Item) -> Result<(), AllocError>
    ensures { OnOk result (needs.new ≡ needs.old ++ map (place_of_module netlist.now.source.now) (refs item.now)) }
{
    match item {
        Item::Inst { cell, .. } => {
            needs.push(place_of(netlist, cell))?;
            Ok(())
        }
        Item::Prim { .. } => Ok(()),
        Item::Copy { .. } => Ok(()),
    }
}

/// The place of the module of that name, and the number of the modules where none has it.
fn place_of(netlist: &Netlist, name: &Name) -> usize
    ensures { result ≡ place_of_module netlist.now.source.now name.now }
{
    netlist.modules.place(name)
}
