//! The names that are wires without a declaration.
ghost use Rattle.std.specs.Prelude.{◌≡◌, length, filter, OnOk, IfOk};
ghost use Rattle.std.specs.List.{flat_map, list_all};
ghost use Rattle.texts.specs.Names.{with_names, each_once};
ghost use Rattle.verilog_scope.specs.Decls.{is_declared};
ghost use Rattle.verilog_scope.specs.Scopes as scope;
ghost use Rattle.verilog_scope.specs.Standing as spec;

use crate::decls::{Decl, decl_at};
use crate::standing::{add_insts, add_parts, add_prims};
use sdcv_base::{Name, Seq};
use std::alloc::{AllocError, Global};
use texts::NameTable;
use verilog_syntax::{AssignDecl, ItemDecl, ModuleDecl};

/// The wires without a declaration: of the names that stand in connections, in terminals and in the targets of assignments,
/// those of which nothing is declared (IEEE 1364-2005, 4.5). Where every name of the module is declared there are none.
#[tactic(auto, using(crate::proofs::ImpliedLemmas::none_implied, crate::proofs::ImpliedLemmas::each_once_filter))]
pub fn implied_wires(
    alloc: Global,
    names: &NameTable,
    decls: &Seq<Decl>,
    decl: &ModuleDecl,
) -> Result<NameTable, AllocError>
    requires named { names.now ≡ spec.standing decl.now }
    requires counted { length decls.now ≡ length names.now }
    ensures { IfOk result (λ wires. wires ≡ scope.implied_wires names.now decls.now decl.now) }
{
    let mut wires = NameTable::new(alloc);
    if !all_declared(decls.as_slice()) {
        let found = implied_names(alloc, decl)?.names(alloc)?;
        add_undeclared(alloc, &mut wires, names, decls, &found)?;
    }
    Ok(wires)
}

fn all_declared(decls: &[Decl]) -> bool
    ensures { result ≡ list_all is_declared decls.now }
{
    decls.iter().all(|decl| decl.is_declared())
}

/// Adds those of these names of which nothing is declared.
fn add_undeclared(
    alloc: Global,
    wires: &mut NameTable,
    names: &NameTable,
    decls: &Seq<Decl>,
    found: &[Name],
) -> Result<(), AllocError>
    ensures { OnOk result (wires.new ≡ with_names wires.old (filter (scope.is_undeclared names.now decls.now) found.now)) }
{
    for name in found {
        if !decl_at(decls, names.place(name)).is_declared() {
            wires.add(alloc, name)?;
        }
    }
    Ok(())
}

/// The names that stand in connections, in terminals and in the targets of assignments.
fn implied_names(alloc: Global, decl: &ModuleDecl) -> Result<NameTable, AllocError>
    ensures { IfOk result (λ names. names ≡ each_once (spec.implied decl.now)) }
{
    let mut names = NameTable::new(alloc);
    for item in decl.items.as_slice() {
        add_implied(alloc, &mut names, item)?;
    }
    Ok(names)
}

fn add_implied(alloc: Global, names: &mut NameTable, item: &ItemDecl) -> Result<(), AllocError>
    ensures { OnOk result (names.new ≡ with_names names.old (spec.implied_in item.now)) }
{
    match item {
        ItemDecl::Ports(_) => Ok(()),
        ItemDecl::Nets { .. } => Ok(()),
        ItemDecl::Assigns(list) => add_targets(alloc, names, list.as_slice()),
        ItemDecl::Prims { list, .. } => add_prims(alloc, names, list.as_slice()),
        ItemDecl::Insts { list, .. } => add_insts(alloc, names, list.as_slice()),
    }
}

fn add_targets(alloc: Global, names: &mut NameTable, list: &[AssignDecl]) -> Result<(), AllocError>
    ensures { OnOk result (names.new ≡ with_names names.old (flat_map spec.names_of_target list.now)) }
{
    for assign in list {
        add_parts(alloc, names, assign.target.parts.as_slice())?;
    }
    Ok(())
}
