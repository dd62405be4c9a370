//! The module that no module instantiates.
ghost use Rattle.std.specs.Prelude.{◌≡◌, ◌++◌, ◌∷◌, [], filter, if◌then◌else◌, IfOk, IfErr, OnOk};
ghost use Rattle.texts.specs.Names.{with_names};
ghost use Rattle.netlist_types.specs.declared.sources.Module.{Module as ModuleRecord};
ghost use Rattle.netlist_types.specs.Lawful.{IsLawful};
ghost use Rattle.link_defs.specs.Circuits.{input_bits};
ghost use Rattle.link_defs.specs.Hierarchy.{refs, tops};
ghost use Rattle.link_defs.specs.Links.{ports_of};
ghost use Rattle.link_tops.specs.Tops.{refs_of, all_refs, is_unused, AreAt, IsTop, IsTopCause};

use crate::ports::input_names;
use linked_types::{LinkFault, PortName};
use netlist_types::{Item, Module, Source};
use sdcv_base::Seq;
use std::alloc::{AllocError, Global};
use texts::NameTable;

/// Adds the reference of an item, if it is an instance.
fn add_ref(alloc: Global, names: &mut NameTable, item: &Item) -> Result<(), AllocError>
    ensures { OnOk result (names.new ≡ with_names names.old (refs item.now)) }
{
    match item {
        Item::Inst { cell, .. } => {
            names.add(alloc, cell)?;
            Ok(())
        }
        Item::Prim { .. } => Ok(()),
        Item::Copy { .. } => Ok(()),
    }
}

/// Adds the references of a module.
fn add_refs(alloc: Global, names: &mut NameTable, body: &Module) -> Result<(), AllocError>
    ensures { OnOk result (names.new ≡ with_names names.old (refs_of body.now)) }
{
    for k in 0..body.items.len() {
        add_ref(alloc, names, body.items.item(k))?;
    }
    Ok(())
}

/// The references of all modules, each once.
fn used_names(alloc: Global, source: &Source) -> Result<NameTable, AllocError>
    ensures { IfOk result (λ names. names ≡ with_names [] (all_refs source.now.modules)) }
{
    let mut names = NameTable::new(alloc);
    for k in 0..source.modules.len() {
        add_refs(alloc, &mut names, source.modules.item(k))?;
    }
    Ok(names)
}

/// Appends a place, where it is that of a module that none instantiates.
fn push_unused(places: &mut Seq<usize>, place: usize, used: bool) -> Result<(), AllocError>
    ensures { OnOk result (places.new ≡ places.old ++ (if used then [] else (place ∷ []))) }
{
    if !used {
        places.push(place)?;
    }
    Ok(())
}

/// The places of the modules whose names are none of these.
fn unused_places(
    alloc: Global,
    modules: &Seq<Module>,
    used: &NameTable,
) -> Result<Seq<usize>, AllocError>
    ensures { IfOk result (λ places. AreAt modules.now places (filter (is_unused used.now) modules.now)) }
{
    let mut places = Seq::new(alloc);
    for k in 0..modules.len() {
        let is_used = used.contains(&modules.item(k).name);
        push_unused(&mut places, k, is_used)?;
    }
    Ok(places)
}

/// The place of the only module that no module instantiates. `NoTop` tells how many such modules there are.
pub fn one_top(alloc: Global, source: &Source) -> Result<usize, LinkFault>
    ensures ok { IfOk result (IsTop source.now) }
    ensures err { IfErr result (IsTopCause source.now) }
{
    let used = used_names(alloc, source)?;
    let places = unused_places(alloc, &source.modules, &used)?;
    if places.len() == 1 {
        return Ok(places.at(0));
    }
    Err(LinkFault::NoTop(places.len() as u64))
}

/// The bits of the input ports of the top module by name, in port order, the most significant first.
pub fn top_inputs(alloc: Global, source: &Source) -> Result<Seq<PortName>, LinkFault>
    requires { IsLawful source.now }
    ensures ok { IfOk result (λ ports. (top : ModuleRecord) × (tops source.now ≡ top ∷ []) × (ports ≡ ports_of (input_bits top))) }
    ensures err { IfErr result (IsTopCause source.now) }
{
    let place = one_top(alloc, source)?;
    let ports = input_names(alloc, source.modules.item(place))?;
    Ok(ports)
}
