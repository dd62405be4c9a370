//! Gate primitives.
ghost use Rattle.std.specs.Prelude.{◌≡◌, IfOk};
ghost use Rattle.texts.specs.Rules.{Gives};
ghost use Rattle.verilog_scope.specs.Fails.{Fails};
ghost use Rattle.verilog_scope.specs.Folds.{fold_ok, each};
ghost use Rattle.verilog_net.specs.Wires as wires;
ghost use Rattle.verilog_net.specs.Items as spec;

use crate::wires::{net_of, wire_of};
use netlist_types::{Item, PrimKind, Wire};
use sdcv_base::{Name, Seq};
use std::alloc::{AllocError, Global};
use verilog_scope::{Scope, VerFault};
use verilog_syntax::{PrimDecl, TermDecl};

/// Appends the instances of a primitive.
pub fn add_prims(
    alloc: Global,
    scope: &Scope,
    items: &mut Seq<Item>,
    kind: PrimKind,
    list: &[PrimDecl],
) -> Result<(), VerFault>
    ensures { Gives Fails (λ _. items.new) result (fold_ok (spec.add_prim scope.now kind) items.old list.now) }
{
    for decl in list {
        add_prim(alloc, scope, items, kind, decl)?;
    }
    Ok(())
}

#[tactic(auto, unfolding(crate::specs::Items::add_prim, crate::specs::Items::prim_of))]
fn add_prim(
    alloc: Global,
    scope: &Scope,
    items: &mut Seq<Item>,
    kind: PrimKind,
    decl: &PrimDecl,
) -> Result<(), VerFault>
    ensures { Gives Fails (λ _. items.new) result (spec.add_prim scope.now kind items.old decl.now) }
{
    let outs = outs(alloc, scope, decl.outs.as_slice())?;
    let ins = ins(alloc, scope, decl.ins.as_slice())?;
    if !has_terminals(kind, outs.len(), ins.len()) {
        return Err(VerFault::Syntax(0));
    }
    let name = copied(alloc, &decl.name)?;
    items.push(Item::Prim {
        kind,
        name,
        outs,
        ins,
    })?;
    Ok(())
}

fn has_terminals(kind: PrimKind, outs: usize, ins: usize) -> bool
    ensures { result ≡ spec.has_terminals kind outs ins }
{
    match kind {
        PrimKind::Buf | PrimKind::Not => 1 <= outs && ins == 1,
        PrimKind::And
        | PrimKind::Nand
        | PrimKind::Or
        | PrimKind::Nor
        | PrimKind::Xor
        | PrimKind::Xnor => outs == 1 && 1 <= ins,
    }
}

fn copied(alloc: Global, name: &Option<Name>) -> Result<Option<Name>, AllocError>
    ensures { IfOk result (λ copy. copy ≡ name.now) }
{
    match name {
        None => Ok(None),
        Some(name) => Ok(Some(name.copy(alloc)?)),
    }
}

fn outs(alloc: Global, scope: &Scope, list: &[TermDecl]) -> Result<Seq<usize>, VerFault>
    ensures { Gives Fails (λ nets. nets) result (each (wires.net_of scope.now) list.now) }
{
    let mut found = Seq::new(alloc);
    for term in list {
        let net = net_of(alloc, scope, term)?;
        found.push(net)?;
    }
    Ok(found)
}

fn ins(alloc: Global, scope: &Scope, list: &[TermDecl]) -> Result<Seq<Wire>, VerFault>
    ensures { Gives Fails (λ wires. wires) result (each (wires.wire_of scope.now) list.now) }
{
    let mut found = Seq::new(alloc);
    for term in list {
        let wire = wire_of(alloc, scope, term)?;
        found.push(wire)?;
    }
    Ok(found)
}
