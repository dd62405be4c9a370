//! Assignments and supplies, bit by bit.
ghost use Rattle.std.specs.Prelude.{◌≡◌, ◌++◌, length, OnOk};
ghost use Rattle.std.specs.List.{flat_map};
ghost use Rattle.texts.specs.Rules.{Gives};
ghost use Rattle.verilog_scope.specs.Fails.{Fails};
ghost use Rattle.verilog_scope.specs.Folds.{fold_ok, fold_both};
ghost use Rattle.verilog_net.specs.Items as spec;

use crate::wires::{driven, wires_of};
use netlist_types::{Item, Wire};
use sdcv_base::{Name, Seq};
use std::alloc::{AllocError, Global};
use verilog_scope::{Scope, VerFault};
use verilog_syntax::{AssignDecl, NetKind};

/// Appends the bits of assignments.
pub fn add_assigns(
    alloc: Global,
    scope: &Scope,
    items: &mut Seq<Item>,
    list: &[AssignDecl],
) -> Result<(), VerFault>
    ensures { Gives Fails (λ _. items.new) result (fold_ok (spec.add_assign scope.now) items.old list.now) }
{
    for assign in list {
        add_assign(alloc, scope, items, assign)?;
    }
    Ok(())
}

/// Appends the bits of an assignment. Width at its target comes where its sides differ in width.
#[tactic(auto, unfolding(crate::specs::Items::add_assign))]
fn add_assign(
    alloc: Global,
    scope: &Scope,
    items: &mut Seq<Item>,
    assign: &AssignDecl,
) -> Result<(), VerFault>
    ensures { Gives Fails (λ _. items.new) result (spec.add_assign scope.now items.old assign.now) }
{
    let to = wires_of(alloc, scope, assign.target.parts.as_slice())?;
    let from = wires_of(alloc, scope, assign.value.parts.as_slice())?;
    if to.len() != from.len() {
        return Err(VerFault::Width(assign.target.offset));
    }
    add_copies(items, assign.target.offset, to.as_slice(), from.as_slice())
}

fn add_copies(
    items: &mut Seq<Item>,
    offset: usize,
    to: &[Wire],
    from: &[Wire],
) -> Result<(), VerFault>
    requires { length to.now ≡ length from.now }
    ensures { Gives Fails (λ _. items.new) result (fold_both (spec.add_copy offset) items.old to.now from.now) }
{
    for i in 0..to.len() {
        let target = &to[i];
        let value = &from[i];
        add_copy(items, offset, target, value)?;
    }
    Ok(())
}

#[tactic(auto, unfolding(crate::specs::Items::add_copy))]
fn add_copy(items: &mut Seq<Item>, offset: usize, to: &Wire, from: &Wire) -> Result<(), VerFault>
    ensures { Gives Fails (λ _. items.new) result (spec.add_copy offset items.old to.now from.now) }
{
    let to = driven(offset, to)?;
    items.push(Item::Copy { to, from: *from })?;
    Ok(())
}

/// Appends what drives nets of a kind: nothing for wires, a constant for each bit of a supply.
pub fn add_nets(
    scope: &Scope,
    items: &mut Seq<Item>,
    kind: NetKind,
    names: &[Name],
) -> Result<(), AllocError>
    ensures { OnOk result (items.new ≡ spec.add_nets scope.now (spec.tied kind) items.old names.now) }
{
    match kind {
        NetKind::Wire => Ok(()),
        NetKind::Supply0 => add_supplies(scope, items, false, names),
        NetKind::Supply1 => add_supplies(scope, items, true, names),
    }
}

fn add_supplies(
    scope: &Scope,
    items: &mut Seq<Item>,
    bit: bool,
    names: &[Name],
) -> Result<(), AllocError>
    ensures { OnOk result (items.new ≡ items.old ++ flat_map (spec.supplies_of scope.now bit) names.now) }
{
    for name in names {
        add_supply(scope, items, bit, name)?;
    }
    Ok(())
}

fn add_supply(
    scope: &Scope,
    items: &mut Seq<Item>,
    bit: bool,
    name: &Name,
) -> Result<(), AllocError>
    ensures { OnOk result (items.new ≡ items.old ++ spec.supplies_of scope.now bit name.now) }
{
    let run = scope.bits(name);
    if run.first.checked_add(run.count).is_none() {
        return Err(AllocError);
    }
    for i in 0..run.count {
        items.push(Item::Copy {
            to: run.first + i,
            from: Wire::Const(bit),
        })?;
    }
    Ok(())
}
