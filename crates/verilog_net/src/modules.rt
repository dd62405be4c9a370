//! Modules, with nets in place of names.
ghost use Rattle.std.specs.Prelude.{◌≡◌, ◌<◌, ◌++◌, [], All, length, map, IfOk, OnOk, Ok};
ghost use Rattle.texts.specs.Rules.{Gives};
ghost use Rattle.verilog_syntax.specs.declared.declarations.Spelled.{Spelled};
ghost use Rattle.verilog_scope.specs.Fails.{Fails};
ghost use Rattle.verilog_scope.specs.Folds.{fold_ok, each};
ghost use Rattle.verilog_scope.specs.Scopes.{scope_of, net_names, IsNumbered};
ghost use Rattle.verilog_net.specs.Wires.{numbers};
ghost use Rattle.verilog_net.specs.Modules as spec;
ghost use Rattle.verilog_net.specs.Uses as uses;
ghost use Rattle.verilog_net.specs.Uses.{standing_nets};

use crate::hierarchies::Hierarchy;
use crate::items::items_of;
use crate::numbers::{numbered_items, numbered_ports};
use crate::uses::used_nets;
use netlist_types::{Item, Module, Port};
use sdcv_base::{Name, Seq};
use std::alloc::{AllocError, Global};
use verilog_scope::{Run, Scope, VerFault};
use verilog_syntax::{Head, ModuleDecl, PortDecl, Spelled};

/// What stands in a port list.
trait Listed {
    ghost spelled: { Self → Spelled };

    fn spelled(&self) -> &Spelled
        ensures { result.now ≡ spelled self.now };
}

impl Listed for Spelled {
    ghost spelled = { λ s. s };

    fn spelled(&self) -> &Spelled {
        self
    }
}

impl Listed for PortDecl {
    ghost spelled = { λ p. p.name };

    fn spelled(&self) -> &Spelled {
        &self.name
    }
}

/// The modules of these declarations, each of which is let go when its module is made.
pub fn modules_of(
    alloc: Global,
    hierarchy: &Hierarchy,
    decls: Seq<ModuleDecl>,
) -> Result<Seq<Module>, VerFault>
    requires { each scope_of decls ≡ Ok hierarchy.now.scopes }
    ensures { Gives Fails (λ made. made) result (spec.modules_made hierarchy.now decls) }
{
    let scopes = hierarchy.scopes.as_slice();
    let mut found = Seq::new(alloc);
    for (scope, decl) in scopes.iter().zip(decls.into_vec()) {
        add_module(alloc, hierarchy, &mut found, scope, decl)?;
    }
    Ok(found)
}

#[tactic(auto, unfolding(crate::specs::Modules::add_module))]
fn add_module(
    alloc: Global,
    hierarchy: &Hierarchy,
    found: &mut Seq<Module>,
    scope: &Scope,
    decl: ModuleDecl,
) -> Result<(), VerFault>
    requires { scope_of decl ≡ Ok scope.now }
    ensures { Gives Fails (λ _. found.new) result (spec.add_module hierarchy.now found.old scope.now decl) }
{
    let made = module(alloc, hierarchy, scope, decl)?;
    found.push(made)?;
    Ok(())
}

#[tactic(auto, unfolding(crate::specs::Modules::module_made, crate::specs::Modules::whole_module))]
fn module(
    alloc: Global,
    hierarchy: &Hierarchy,
    scope: &Scope,
    decl: ModuleDecl,
) -> Result<Module, VerFault>
    requires { scope_of decl ≡ Ok scope.now }
    ensures { Gives Fails (λ made. made) result (spec.module_made hierarchy.now scope.now decl) }
{
    let ModuleDecl { name, head, items } = decl;
    let ports = ports_of(alloc, scope, &head)?;
    let items = items_of(alloc, hierarchy, scope, items)?;
    let made = with_used_nets(alloc, scope, name, ports, items)?;
    Ok(made)
}

/// The module of these ports and items, with those nets alone that stand in them.
#[tactic(auto, unfolding(crate::specs::Uses::with_used_nets))]
fn with_used_nets(
    alloc: Global,
    scope: &Scope,
    name: Name,
    ports: Seq<Port>,
    items: Seq<Item>,
) -> Result<Module, AllocError>
    requires numbered { IsNumbered scope.now }
    requires nets { All (λ net. net < length (net_names scope.now)) (standing_nets ports items) }
    ensures { IfOk result (λ made. made ≡ uses.with_used_nets (record { name = name; ports = ports; nets = net_names scope.now; items = items })) }
{
    let used = used_nets(alloc, ports.as_slice(), items.as_slice())?;
    let nets = scope.net_names(alloc, used.as_slice())?;
    let ports = numbered_ports(alloc, used.as_slice(), ports)?;
    let items = numbered_items(alloc, used.as_slice(), items)?;
    Ok(Module {
        name,
        ports,
        nets,
        items,
    })
}

/// The ports, in the order of the port list. A name there that has no direction is Syntax at it.
fn ports_of(alloc: Global, scope: &Scope, head: &Head) -> Result<Seq<Port>, VerFault>
    ensures { Gives Fails (λ ports. ports) result (spec.ports_of scope.now head.now) }
{
    match head {
        Head::Names(list) => ports(alloc, scope, list.as_slice()),
        Head::Ports(list) => ports(alloc, scope, list.as_slice()),
    }
}

fn ports<T: Listed>(alloc: Global, scope: &Scope, list: &[T]) -> Result<Seq<Port>, VerFault>
    ensures { Gives Fails (λ ports. ports) result (fold_ok (spec.add_port scope.now) [] (map T.spelled list.now)) }
{
    let mut found = Seq::new(alloc);
    for one in list {
        add_port(alloc, scope, &mut found, one.spelled())?;
    }
    Ok(found)
}

#[tactic(auto, unfolding(crate::specs::Modules::add_port))]
fn add_port(
    alloc: Global,
    scope: &Scope,
    found: &mut Seq<Port>,
    spelled: &Spelled,
) -> Result<(), VerFault>
    ensures { Gives Fails (λ _. found.new) result (spec.add_port scope.now found.old spelled.now) }
{
    let decl = scope.decl(&spelled.name);
    let Some(dir) = decl.dir else {
        return Err(VerFault::Syntax(spelled.offset));
    };
    let name = spelled.name.copy(alloc)?;
    let mut bits = Seq::new(alloc);
    push_numbers(&mut bits, &scope.bits(&spelled.name))?;
    found.push(Port {
        name,
        dir,
        bits,
        bus: decl.range.is_some(),
    })?;
    Ok(())
}

fn push_numbers(found: &mut Seq<usize>, run: &Run) -> Result<(), AllocError>
    ensures { OnOk result (found.new ≡ found.old ++ numbers run.now) }
{
    if run.first.checked_add(run.count).is_none() {
        return Err(AllocError);
    }
    for i in 0..run.count {
        found.push(run.first + i)?;
    }
    Ok(())
}
