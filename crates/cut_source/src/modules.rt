//! What is left of modules, and what is cut out of them.
ghost use Rattle.std.specs.Prelude.{◌≡◌, ◌++◌, ◌∷◌, [], filter, flat_map, map, if◌then◌else◌, IfOk, OnOk};
ghost use Rattle.texts.specs.Names.{is_among};
ghost use Rattle.netlist_types.specs.Lawful.{module_of};
ghost use Rattle.link_defs.specs.Hierarchy.{cell_of};
ghost use Rattle.cut_source.specs.Cuttable as spec;
ghost use Rattle.cut_source.specs.Cuttable.{plan};
ghost use Rattle.cut_source.specs.Items as items;
ghost use Rattle.cut_source.specs.Sources.{named_modules};

use crate::cell_items::cell_cut;
use crate::copies::{copy_item, copy_names, copy_ports};
use crate::cuttable::{is_cut_reference, is_left};
use crate::stub_items::stub_cut;
use link_defs::CutItem;
use link_items::{Netlist, Referent};
use netlist_types::{Conn, Item, Module};
use sdcv_base::{Name, Seq};
use std::alloc::{AllocError, Global};
use texts::NameTable;

/// Appends an item, if it is left.
fn push_left(
    alloc: Global,
    netlist: &Netlist,
    free: &Seq<Name>,
    list: &mut Seq<Item>,
    item: &Item,
) -> Result<(), AllocError>
    ensures { OnOk result (list.new ≡ list.old
        ++ (if spec.is_left (plan netlist.now.source.now netlist.now.library.now free.now) item.now then (item.now ∷ []) else [])) }
{
    if is_left(netlist, free, item) {
        list.push(copy_item(alloc, item)?)?;
    }
    Ok(())
}

/// The items that are left.
fn items_left(
    alloc: Global,
    netlist: &Netlist,
    free: &Seq<Name>,
    items: &Seq<Item>,
) -> Result<Seq<Item>, AllocError>
    ensures { IfOk result (λ list. list ≡ filter (spec.is_left (plan netlist.now.source.now netlist.now.library.now free.now)) items.now) }
{
    let mut list = Seq::new(alloc);
    for k in 0..items.len() {
        push_left(alloc, netlist, free, &mut list, items.item(k))?;
    }
    Ok(list)
}

/// A module without what is cut out of it.
fn module_left(
    alloc: Global,
    netlist: &Netlist,
    free: &Seq<Name>,
    body: &Module,
) -> Result<Module, AllocError>
    ensures { IfOk result (λ m. m ≡ spec.module_left (plan netlist.now.source.now netlist.now.library.now free.now) body.now) }
{
    Ok(Module {
        name: body.name.copy(alloc)?,
        ports: copy_ports(alloc, &body.ports)?,
        nets: copy_names(alloc, &body.nets)?,
        items: items_left(alloc, netlist, free, &body.items)?,
    })
}

/// Appends what is left of a module, if its name is one of these.
fn push_module(
    alloc: Global,
    netlist: &Netlist,
    free: &Seq<Name>,
    names: &NameTable,
    list: &mut Seq<Module>,
    body: &Module,
) -> Result<(), AllocError>
    ensures { OnOk result (list.new ≡ list.old ++ map (spec.module_left (plan netlist.now.source.now netlist.now.library.now free.now))
        (if is_among body.now.name names.now then (body.now ∷ []) else [])) }
{
    if names.contains(&body.name) {
        list.push(module_left(alloc, netlist, free, body)?)?;
    }
    Ok(())
}

/// The modules of these names without what is cut out of them.
pub(crate) fn modules_left(
    alloc: Global,
    netlist: &Netlist,
    free: &Seq<Name>,
    names: &NameTable,
) -> Result<Seq<Module>, AllocError>
    ensures { IfOk result (λ list. list ≡ map (spec.module_left (plan netlist.now.source.now netlist.now.library.now free.now))
        (named_modules netlist.now.source.now names.now)) }
{
    let mut list = Seq::new(alloc);
    let modules = &netlist.source.modules;
    for k in 0..modules.len() {
        push_module(alloc, netlist, free, names, &mut list, modules.item(k))?;
    }
    Ok(list)
}

/// An instance that is cut out of a module.
fn instance_cut(
    alloc: Global,
    netlist: &Netlist,
    body: &Module,
    reference: &Name,
    name: &Name,
    conns: &Seq<Conn>,
) -> Result<CutItem, AllocError>
    ensures { IfOk result (λ x. x ≡ items.cut_by body.now (module_of netlist.now.source.now reference.now)
        (cell_of netlist.now.library.now reference.now) reference.now name.now conns.now) }
{
    match netlist.referent(reference) {
        Referent::Module(place) => {
            let stub = netlist.source.modules.item(place);
            stub_cut(alloc, body, stub, reference, name, conns)
        }
        Referent::Cell(place) => {
            let cell = netlist.library.cells.item(place);
            cell_cut(alloc, body, Some(cell), reference, name, conns)
        }
        Referent::Unknown => cell_cut(alloc, body, None, reference, name, conns),
    }
}

/// Appends what of an item is cut out of a module.
fn push_cut(
    alloc: Global,
    netlist: &Netlist,
    free: &Seq<Name>,
    list: &mut Seq<CutItem>,
    body: &Module,
    item: &Item,
) -> Result<(), AllocError>
    ensures { OnOk result (list.new ≡ list.old
        ++ items.item_cut (plan netlist.now.source.now netlist.now.library.now free.now) body.now item.now) }
{
    match item {
        Item::Inst { cell, name, conns } => {
            if is_cut_reference(netlist, free, cell) {
                list.push(instance_cut(alloc, netlist, body, cell, name, conns)?)?;
            }
            Ok(())
        }
        Item::Prim { .. } => Ok(()),
        Item::Copy { .. } => Ok(()),
    }
}

/// Appends what is cut out of a module.
fn push_items_cut(
    alloc: Global,
    netlist: &Netlist,
    free: &Seq<Name>,
    list: &mut Seq<CutItem>,
    body: &Module,
) -> Result<(), AllocError>
    ensures { OnOk result (list.new ≡ list.old ++ items.items_cut (plan netlist.now.source.now netlist.now.library.now free.now) body.now) }
{
    for k in 0..body.items.len() {
        push_cut(alloc, netlist, free, list, body, body.items.item(k))?;
    }
    Ok(())
}

/// Appends what is cut out of a module, if its name is one of these.
fn push_cuts(
    alloc: Global,
    netlist: &Netlist,
    free: &Seq<Name>,
    names: &NameTable,
    list: &mut Seq<CutItem>,
    body: &Module,
) -> Result<(), AllocError>
    ensures { OnOk result (list.new ≡ list.old ++ flat_map (items.items_cut (plan netlist.now.source.now netlist.now.library.now free.now))
        (if is_among body.now.name names.now then (body.now ∷ []) else [])) }
{
    if names.contains(&body.name) {
        return push_items_cut(alloc, netlist, free, list, body);
    }
    Ok(())
}

/// What is cut out of the modules of these names.
pub(crate) fn items_cut(
    alloc: Global,
    netlist: &Netlist,
    free: &Seq<Name>,
    names: &NameTable,
) -> Result<Seq<CutItem>, AllocError>
    ensures { IfOk result (λ list. list ≡ flat_map (items.items_cut (plan netlist.now.source.now netlist.now.library.now free.now))
        (named_modules netlist.now.source.now names.now)) }
{
    let mut list = Seq::new(alloc);
    let modules = &netlist.source.modules;
    for k in 0..modules.len() {
        push_cuts(alloc, netlist, free, names, &mut list, modules.item(k))?;
    }
    Ok(list)
}
