//! What is declared of each name of a module, once.
ghost use Rattle.std.specs.Prelude.{◌≡◌, [], map, slice_set};
ghost use Rattle.texts.specs.Rules.{Gives};
ghost use Rattle.verilog_scope.specs.Fails.{Fails};
ghost use Rattle.verilog_scope.specs.Folds.{fold_ok};
ghost use Rattle.verilog_scope.specs.Decls as spec;

use crate::ranges::same_range;
use netlist_types::{Dir, VerFault};
use sdcv_base::{Name, Seq};
use std::alloc::Global;
use texts::{NameTable, Named};
use verilog_syntax::{Head, ItemDecl, ModuleDecl, NetKind, PortDecl, PrimDecl, Range};

/// What is declared of a name: a port's direction, a net's kind, and the range of either.
#[derive(Clone, Copy, PartialEq, Eq)]
pub struct Decl {
    pub dir: Option<Dir>,
    pub kind: Option<NetKind>,
    pub range: Option<Range>,
}

impl Decl {
    /// Whether anything is declared: a direction, or a kind of net.
    pub fn is_declared(&self) -> bool
        ensures { result ≡ spec.is_declared self.now }
    {
        self.dir.is_some() || self.kind.is_some()
    }
}

/// What is declared of the name at a place.
pub fn decl_at(decls: &Seq<Decl>, place: usize) -> Decl
    ensures { result ≡ spec.decl_at decls.now place }
{
    decls.as_slice().get(place).copied().unwrap_or(Decl {
        dir: None,
        kind: None,
        range: None,
    })
}

#[tactic(auto, using(crate::proofs::DeclLemmas::slice_set_past))]
fn put(decls: &mut Seq<Decl>, place: usize, decl: Decl)
    ensures { decls.new ≡ slice_set decls.old place decl }
{
    if place < decls.len() {
        decls.put(place, decl);
    }
}

/// Adds a name that has to be new, and else is told as `TwiceName`.
pub fn add_one(alloc: Global, names: &mut NameTable, name: &Name) -> Result<(), VerFault>
    ensures { Gives Fails (λ _. names.new) result (spec.with_new names.old name.now) }
{
    if names.add(alloc, name)? {
        Ok(())
    } else {
        Err(VerFault::TwiceName(name.copy(alloc)?))
    }
}

/// Adds names that all have to be new; the first that is not is told as `TwiceName`.
pub fn add_new<T: Named>(alloc: Global, names: &mut NameTable, these: &[T]) -> Result<(), VerFault>
    ensures { Gives Fails (λ _. names.new) result (fold_ok spec.with_new names.old (map T.named these.now)) }
{
    for one in these {
        add_one(alloc, names, one.name())?;
    }
    Ok(())
}

/// The names of a port list of names.
#[tactic(auto, unfolding(crate::specs::Decls::listed_in))]
pub fn listed_in(alloc: Global, head: &Head) -> Result<NameTable, VerFault>
    ensures { Gives Fails (λ names. names) result (spec.listed_in head.now) }
{
    let mut names = NameTable::new(alloc);
    match head {
        Head::Names(list) => {
            add_new(alloc, &mut names, list.as_slice())?;
            Ok(names)
        }
        Head::Ports(list) => {
            add_new(alloc, &mut names, list.as_slice())?;
            Ok(NameTable::new(alloc))
        }
    }
}

/// What is declared of each of `names`.
#[tactic(auto, unfolding(crate::specs::Decls::declares))]
pub fn declares(
    alloc: Global,
    names: &NameTable,
    listed: &NameTable,
    decl: &ModuleDecl,
) -> Result<Seq<Decl>, VerFault>
    ensures { Gives Fails (λ decls. decls) result (spec.declares names.now listed.now decl.now) }
{
    let blank = Decl {
        dir: None,
        kind: None,
        range: None,
    };
    let mut decls = Seq::filled(alloc, blank, names.len())?;
    declare_head(alloc, names, &mut decls, &decl.head)?;
    declare_items(alloc, names, listed, &mut decls, decl.items.as_slice())?;
    Ok(decls)
}

#[tactic(auto, unfolding(crate::specs::Decls::declare_head))]
fn declare_head(
    alloc: Global,
    names: &NameTable,
    decls: &mut Seq<Decl>,
    head: &Head,
) -> Result<(), VerFault>
    ensures { Gives Fails (λ _. decls.new) result (spec.declare_head names.now decls.old head.now) }
{
    match head {
        Head::Names(_) => Ok(()),
        Head::Ports(list) => declare_ports(alloc, names, decls, list.as_slice()),
    }
}

fn declare_ports(
    alloc: Global,
    names: &NameTable,
    decls: &mut Seq<Decl>,
    list: &[PortDecl],
) -> Result<(), VerFault>
    ensures { Gives Fails (λ _. decls.new) result (fold_ok (spec.declare_port names.now) decls.old list.now) }
{
    for port in list {
        declare_port(alloc, names, decls, port)?;
    }
    Ok(())
}

fn takes_port(decl: &Decl, range: &Option<Range>) -> bool
    ensures { result ≡ spec.takes_port decl.now range.now }
{
    decl.dir.is_none()
        && match &decl.kind {
            None => true,
            Some(kind) => is_wire(kind) && same_range(&decl.range, range),
        }
}

fn takes_net(decl: &Decl, kind: &NetKind, range: &Option<Range>) -> bool
    ensures { result ≡ spec.takes_net decl.now kind.now range.now }
{
    decl.kind.is_none()
        && match &decl.dir {
            None => true,
            Some(_) => is_wire(kind) && same_range(&decl.range, range),
        }
}

fn is_wire(kind: &NetKind) -> bool
    ensures { result ≡ spec.is_wire kind.now }
{
    match kind {
        NetKind::Wire => true,
        NetKind::Supply0 | NetKind::Supply1 => false,
    }
}

#[tactic(auto, unfolding(crate::specs::Decls::declare_port))]
fn declare_port(
    alloc: Global,
    names: &NameTable,
    decls: &mut Seq<Decl>,
    port: &PortDecl,
) -> Result<(), VerFault>
    ensures { Gives Fails (λ _. decls.new) result (spec.declare_port names.now decls.old port.now) }
{
    let place = names.place(&port.name.name);
    let found = decl_at(decls, place);
    if !takes_port(&found, &port.range) {
        return Err(VerFault::TwiceName(port.name.name.copy(alloc)?));
    }
    let decl = Decl {
        dir: Some(port.dir),
        kind: found.kind,
        range: port.range,
    };
    put(decls, place, decl);
    Ok(())
}

fn declare_items(
    alloc: Global,
    names: &NameTable,
    listed: &NameTable,
    decls: &mut Seq<Decl>,
    items: &[ItemDecl],
) -> Result<(), VerFault>
    ensures { Gives Fails (λ _. decls.new) result (fold_ok (spec.declare_item names.now listed.now) decls.old items.now) }
{
    for item in items {
        declare_item(alloc, names, listed, decls, item)?;
    }
    Ok(())
}

#[tactic(auto, unfolding(crate::specs::Decls::declare_item))]
fn declare_item(
    alloc: Global,
    names: &NameTable,
    listed: &NameTable,
    decls: &mut Seq<Decl>,
    item: &ItemDecl,
) -> Result<(), VerFault>
    ensures { Gives Fails (λ _. decls.new) result (spec.declare_item names.now listed.now decls.old item.now) }
{
    match item {
        ItemDecl::Ports(list) => declare_body(alloc, names, listed, decls, list.as_slice()),
        ItemDecl::Nets {
            kind,
            range,
            names: list,
        } => declare_nets(alloc, names, decls, kind, range, list.as_slice()),
        ItemDecl::Assigns(_) => Ok(()),
        ItemDecl::Prims { .. } => Ok(()),
        ItemDecl::Insts { .. } => Ok(()),
    }
}

fn declare_body(
    alloc: Global,
    names: &NameTable,
    listed: &NameTable,
    decls: &mut Seq<Decl>,
    list: &[PortDecl],
) -> Result<(), VerFault>
    ensures { Gives Fails (λ _. decls.new) result (fold_ok (spec.declare_listed names.now listed.now) decls.old list.now) }
{
    for port in list {
        declare_listed(alloc, names, listed, decls, port)?;
    }
    Ok(())
}

#[tactic(auto, unfolding(crate::specs::Decls::declare_listed))]
fn declare_listed(
    alloc: Global,
    names: &NameTable,
    listed: &NameTable,
    decls: &mut Seq<Decl>,
    port: &PortDecl,
) -> Result<(), VerFault>
    ensures { Gives Fails (λ _. decls.new) result (spec.declare_listed names.now listed.now decls.old port.now) }
{
    if listed.contains(&port.name.name) {
        declare_port(alloc, names, decls, port)
    } else {
        Err(VerFault::Syntax(port.name.offset))
    }
}

fn declare_nets(
    alloc: Global,
    names: &NameTable,
    decls: &mut Seq<Decl>,
    kind: &NetKind,
    range: &Option<Range>,
    list: &[Name],
) -> Result<(), VerFault>
    ensures { Gives Fails (λ _. decls.new) result (fold_ok (spec.declare_net names.now kind.now range.now) decls.old list.now) }
{
    for name in list {
        declare_net(alloc, names, decls, kind, range, name)?;
    }
    Ok(())
}

#[tactic(auto, unfolding(crate::specs::Decls::declare_net))]
fn declare_net(
    alloc: Global,
    names: &NameTable,
    decls: &mut Seq<Decl>,
    kind: &NetKind,
    range: &Option<Range>,
    name: &Name,
) -> Result<(), VerFault>
    ensures { Gives Fails (λ _. decls.new) result (spec.declare_net names.now kind.now range.now decls.old name.now) }
{
    let place = names.place(name);
    let found = decl_at(decls, place);
    if !takes_net(&found, kind, range) {
        return Err(VerFault::TwiceName(name.copy(alloc)?));
    }
    let decl = Decl {
        dir: found.dir,
        kind: Some(*kind),
        range: *range,
    };
    put(decls, place, decl);
    Ok(())
}

/// Checks that the instances of a module, cells and primitives, have names that differ.
pub fn check_insts(alloc: Global, items: &[ItemDecl]) -> Result<NameTable, VerFault>
    ensures { Gives Fails (λ names. names) result (fold_ok spec.with_insts [] items.now) }
{
    let mut names = NameTable::new(alloc);
    for item in items {
        add_insts(alloc, &mut names, item)?;
    }
    Ok(names)
}

#[tactic(auto, unfolding(crate::specs::Decls::with_insts))]
fn add_insts(alloc: Global, names: &mut NameTable, item: &ItemDecl) -> Result<(), VerFault>
    ensures { Gives Fails (λ _. names.new) result (spec.with_insts names.old item.now) }
{
    match item {
        ItemDecl::Ports(_) => Ok(()),
        ItemDecl::Nets { .. } => Ok(()),
        ItemDecl::Assigns(_) => Ok(()),
        ItemDecl::Prims { list, .. } => add_prims(alloc, names, list.as_slice()),
        ItemDecl::Insts { list, .. } => add_new(alloc, names, list.as_slice()),
    }
}

fn add_prims(alloc: Global, names: &mut NameTable, list: &[PrimDecl]) -> Result<(), VerFault>
    ensures { Gives Fails (λ _. names.new) result (fold_ok spec.with_prim names.old list.now) }
{
    for prim in list {
        add_prim(alloc, names, prim)?;
    }
    Ok(())
}

#[tactic(auto, unfolding(crate::specs::Decls::with_prim))]
fn add_prim(alloc: Global, names: &mut NameTable, prim: &PrimDecl) -> Result<(), VerFault>
    ensures { Gives Fails (λ _. names.new) result (spec.with_prim names.old prim.now) }
{
    match &prim.name {
        None => Ok(()),
        Some(name) => add_one(alloc, names, name),
    }
}
