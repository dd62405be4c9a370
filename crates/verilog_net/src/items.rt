//! The items of a module, with nets in place of names.
ghost use Rattle.std.specs.Prelude.{◌≡◌, []};
ghost use Rattle.texts.specs.Rules.{Gives};
ghost use Rattle.verilog_scope.specs.Fails.{Fails};
ghost use Rattle.verilog_scope.specs.Folds.{fold_ok};
ghost use Rattle.verilog_net.specs.Items as spec;

use crate::copies::{add_assigns, add_nets};
use crate::hierarchies::Hierarchy;
use crate::insts::add_insts;
use crate::prims::add_prims;
use netlist_types::Item;
use sdcv_base::Seq;
use std::alloc::Global;
use verilog_scope::{Scope, VerFault};
use verilog_syntax::ItemDecl;

/// The items, in the order of the text. What a statement declares is let go as soon as its items are made, so that they
/// take its room.
pub fn items_of(
    alloc: Global,
    hierarchy: &Hierarchy,
    scope: &Scope,
    decls: Seq<ItemDecl>,
) -> Result<Seq<Item>, VerFault>
    ensures { Gives Fails (λ items. items) result (fold_ok (spec.add_item hierarchy.now scope.now) [] decls) }
{
    let mut items = Seq::new(alloc);
    for decl in decls.into_vec() {
        add_item(alloc, hierarchy, scope, &mut items, decl)?;
    }
    Ok(items)
}

#[tactic(auto, unfolding(crate::specs::Items::add_item))]
fn add_item(
    alloc: Global,
    hierarchy: &Hierarchy,
    scope: &Scope,
    items: &mut Seq<Item>,
    decl: ItemDecl,
) -> Result<(), VerFault>
    ensures { Gives Fails (λ _. items.new) result (spec.add_item hierarchy.now scope.now items.old decl) }
{
    match decl {
        ItemDecl::Ports(_) => Ok(()),
        ItemDecl::Nets { kind, names, .. } => {
            add_nets(scope, items, kind, names.as_slice())?;
            Ok(())
        }
        ItemDecl::Assigns(list) => add_assigns(alloc, scope, items, list.as_slice()),
        ItemDecl::Prims { kind, list } => add_prims(alloc, scope, items, kind, list.as_slice()),
        ItemDecl::Insts { cell, list } => {
            add_insts(alloc, hierarchy, scope, items, &cell, list.as_slice())
        }
    }
}
