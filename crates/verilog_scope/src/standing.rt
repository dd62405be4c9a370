//! The names of nets that stand in a module.
ghost use Rattle.std.specs.Prelude.{◌≡◌, OnOk, IfOk};
ghost use Rattle.std.specs.List.{flat_map};
ghost use Rattle.texts.specs.Names.{with_names};
ghost use Rattle.verilog_scope.specs.Standing as spec;

use std::alloc::{AllocError, Global};
use texts::NameTable;
use verilog_syntax::{
    AssignDecl, ConnDecl, Head, InstDecl, ItemDecl, ModuleDecl, Part, PartDecl, PrimDecl, TermDecl,
};

/// The names, in the order in which they first stand.
pub fn standing(alloc: Global, decl: &ModuleDecl) -> Result<NameTable, AllocError>
    ensures { IfOk result (λ names. names ≡ spec.standing decl.now) }
{
    let mut names = NameTable::new(alloc);
    add_head(alloc, &mut names, &decl.head)?;
    for item in decl.items.as_slice() {
        add_item(alloc, &mut names, item)?;
    }
    Ok(names)
}

fn add_head(alloc: Global, names: &mut NameTable, head: &Head) -> Result<(), AllocError>
    ensures { OnOk result (names.new ≡ with_names names.old (spec.head_names head.now)) }
{
    match head {
        Head::Names(list) => {
            names.add_all(alloc, list.as_slice())?;
        }
        Head::Ports(list) => {
            names.add_all(alloc, list.as_slice())?;
        }
    }
    Ok(())
}

fn add_item(alloc: Global, names: &mut NameTable, item: &ItemDecl) -> Result<(), AllocError>
    ensures { OnOk result (names.new ≡ with_names names.old (spec.names_in item.now)) }
{
    match item {
        ItemDecl::Ports(list) => {
            names.add_all(alloc, list.as_slice())?;
            Ok(())
        }
        ItemDecl::Nets { names: list, .. } => {
            names.add_all(alloc, list.as_slice())?;
            Ok(())
        }
        ItemDecl::Assigns(list) => add_assigns(alloc, names, list.as_slice()),
        ItemDecl::Prims { list, .. } => add_prims(alloc, names, list.as_slice()),
        ItemDecl::Insts { list, .. } => add_insts(alloc, names, list.as_slice()),
    }
}

fn add_assigns(alloc: Global, names: &mut NameTable, list: &[AssignDecl]) -> Result<(), AllocError>
    ensures { OnOk result (names.new ≡ with_names names.old (flat_map spec.names_of_assign list.now)) }
{
    for assign in list {
        add_assign(alloc, names, assign)?;
    }
    Ok(())
}

#[tactic(auto, using(crate::proofs::StandingLemmas::with_names_both))]
fn add_assign(alloc: Global, names: &mut NameTable, assign: &AssignDecl) -> Result<(), AllocError>
    ensures { OnOk result (names.new ≡ with_names names.old (spec.names_of_assign assign.now)) }
{
    add_parts(alloc, names, assign.target.parts.as_slice())?;
    add_parts(alloc, names, assign.value.parts.as_slice())
}

pub fn add_prims(alloc: Global, names: &mut NameTable, list: &[PrimDecl]) -> Result<(), AllocError>
    ensures { OnOk result (names.new ≡ with_names names.old (flat_map spec.names_of_prim list.now)) }
{
    for prim in list {
        add_prim(alloc, names, prim)?;
    }
    Ok(())
}

#[tactic(auto, using(crate::proofs::StandingLemmas::with_names_both))]
fn add_prim(alloc: Global, names: &mut NameTable, prim: &PrimDecl) -> Result<(), AllocError>
    ensures { OnOk result (names.new ≡ with_names names.old (spec.names_of_prim prim.now)) }
{
    add_terms(alloc, names, prim.outs.as_slice())?;
    add_terms(alloc, names, prim.ins.as_slice())
}

fn add_terms(alloc: Global, names: &mut NameTable, list: &[TermDecl]) -> Result<(), AllocError>
    ensures { OnOk result (names.new ≡ with_names names.old (flat_map spec.names_of_term list.now)) }
{
    for term in list {
        add_parts(alloc, names, term.parts.as_slice())?;
    }
    Ok(())
}

pub fn add_insts(alloc: Global, names: &mut NameTable, list: &[InstDecl]) -> Result<(), AllocError>
    ensures { OnOk result (names.new ≡ with_names names.old (flat_map spec.names_of_inst list.now)) }
{
    for inst in list {
        add_conns(alloc, names, inst.conns.as_slice())?;
    }
    Ok(())
}

fn add_conns(alloc: Global, names: &mut NameTable, list: &[ConnDecl]) -> Result<(), AllocError>
    ensures { OnOk result (names.new ≡ with_names names.old (flat_map spec.names_of_conn list.now)) }
{
    for conn in list {
        add_conn(alloc, names, conn)?;
    }
    Ok(())
}

fn add_conn(alloc: Global, names: &mut NameTable, conn: &ConnDecl) -> Result<(), AllocError>
    ensures { OnOk result (names.new ≡ with_names names.old (spec.names_of_conn conn.now)) }
{
    match &conn.parts {
        Some(parts) => add_parts(alloc, names, parts.as_slice()),
        None => Ok(()),
    }
}

pub fn add_parts(alloc: Global, names: &mut NameTable, parts: &[PartDecl]) -> Result<(), AllocError>
    ensures { OnOk result (names.new ≡ with_names names.old (spec.names_of_parts parts.now)) }
{
    for part in parts {
        add_part(alloc, names, part)?;
    }
    Ok(())
}

fn add_part(alloc: Global, names: &mut NameTable, part: &PartDecl) -> Result<(), AllocError>
    ensures { OnOk result (names.new ≡ with_names names.old (spec.names_of_part part.now)) }
{
    if let Part::Net { name, .. } = &part.part {
        names.add(alloc, name)?;
    }
    Ok(())
}
