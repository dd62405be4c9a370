//! The names of the modules below the top module.
ghost use Rattle.std.specs.Prelude.{◌≡◌, ◌<◌, ◌∷◌, [], length, filter, flat_map, slice_get, IfOk, OnOk};
ghost use Rattle.std.specs.Option.{option_copied};
ghost use Rattle.texts.specs.Names.{with_names};
ghost use Rattle.netlist_types.specs.Lawful.{module_of};
ghost use Rattle.link_items.specs.Items.{module_at};
ghost use Rattle.cut_source.specs.Below.{inner_names, is_module as names_module, named, IsWidened};
ghost use Rattle.cut_source.specs.Cuttable.{plan};
ghost use Rattle.cut_source.specs.Sources.{AreNamesBelow};

use crate::cuttable::is_left;
use link_items::{Netlist, Referent};
use netlist_types::{Item, Module};
use sdcv_base::{Name, Seq};
use std::alloc::{AllocError, Global};
use texts::NameTable;

/// Whether a name is that of a module.
fn is_module(netlist: &Netlist, name: &Name) -> bool
    ensures { result ≡ names_module netlist.now.source.now name.now }
{
    match netlist.referent(name) {
        Referent::Module(_) => true,
        Referent::Cell(_) => false,
        Referent::Unknown => false,
    }
}

/// Adds the name of a module.
fn add_module(
    alloc: Global,
    netlist: &Netlist,
    names: &mut NameTable,
    reference: &Name,
) -> Result<(), AllocError>
    ensures { OnOk result (names.new ≡ with_names names.old (filter (names_module netlist.now.source.now) (reference.now ∷ []))) }
{
    if is_module(netlist, reference) {
        names.add(alloc, reference)?;
    }
    Ok(())
}

/// Adds the name of the module that an item is an instance of, if it is left.
fn add_inner(
    alloc: Global,
    netlist: &Netlist,
    free: &Seq<Name>,
    names: &mut NameTable,
    item: &Item,
) -> Result<(), AllocError>
    ensures { OnOk result (names.new
        ≡ with_names names.old (inner_names (plan netlist.now.source.now netlist.now.library.now free.now) item.now)) }
{
    if !is_left(netlist, free, item) {
        return Ok(());
    }
    match item {
        Item::Inst { cell, .. } => add_module(alloc, netlist, names, cell),
        Item::Prim { .. } => Ok(()),
        Item::Copy { .. } => Ok(()),
    }
}

/// Adds the names of the modules in a module.
fn add_all_inner(
    alloc: Global,
    netlist: &Netlist,
    free: &Seq<Name>,
    names: &mut NameTable,
    body: &Module,
) -> Result<(), AllocError>
    ensures { OnOk result (names.new
        ≡ with_names names.old (flat_map (inner_names (plan netlist.now.source.now netlist.now.library.now free.now)) body.now.items)) }
{
    for k in 0..body.items.len() {
        add_inner(alloc, netlist, free, names, body.items.item(k))?;
    }
    Ok(())
}

/// The module whose name stands at a place, if one has it.
fn module_named<'a>(netlist: &Netlist<'a>, names: &NameTable, place: usize) -> Option<&'a Module>
    ensures { option_copied result ≡ named netlist.now.source.now (slice_get names.now place) }
{
    match names.name(place) {
        Some(name) => find_module(netlist, name),
        None => None,
    }
}

/// The module of a name, if there is one.
fn find_module<'a>(netlist: &Netlist<'a>, name: &Name) -> Option<&'a Module>
    ensures { option_copied result ≡ module_of netlist.now.source.now name.now }
{
    match netlist.referent(name) {
        Referent::Module(place) => Some(netlist.source.modules.item(place)),
        Referent::Cell(_) => None,
        Referent::Unknown => None,
    }
}

/// Adds the names of the modules in the module whose name stands at a place.
fn widen(
    alloc: Global,
    netlist: &Netlist,
    free: &Seq<Name>,
    names: &mut NameTable,
    place: usize,
) -> Result<(), AllocError>
    ensures { OnOk result (IsWidened (plan netlist.now.source.now netlist.now.library.now free.now) names.old place names.new) }
{
    match module_named(netlist, names, place) {
        Some(body) => add_all_inner(alloc, netlist, free, names, body),
        None => Ok(()),
    }
}

/// The names of the modules below the module at a place: each is looked into once.
pub(crate) fn names_below(
    alloc: Global,
    netlist: &Netlist,
    free: &Seq<Name>,
    top: usize,
) -> Result<NameTable, AllocError>
    requires { top < length netlist.now.source.now.modules }
    ensures { IfOk result (AreNamesBelow (plan netlist.now.source.now netlist.now.library.now free.now) (module_at netlist.now.source.now top)) }
{
    let mut names = NameTable::new(alloc);
    names.add(alloc, &netlist.source.modules.item(top).name)?;
    let mut done = 0;
    while done < names.len() {
        widen(alloc, netlist, free, &mut names, done)?;
        done += 1;
    }
    Ok(names)
}
