//! Instances of cells and modules.
ghost use Rattle.std.specs.Prelude.{slice_get};
ghost use Rattle.texts.specs.Rules.{Gives};
ghost use Rattle.verilog_scope.specs.Fails.{Fails};
ghost use Rattle.verilog_scope.specs.Folds.{fold_ok, each};
ghost use Rattle.verilog_net.specs.Hierarchies.{inner_of};
ghost use Rattle.verilog_net.specs.Items as spec;

use crate::hierarchies::Hierarchy;
use crate::pins::check_pins;
use crate::spreads::wide_conns;
use crate::wires::wires_of;
use netlist_types::{Conn, Item};
use sdcv_base::{Name, Seq};
use std::alloc::Global;
use verilog_scope::{Scope, VerFault};
use verilog_syntax::{ConnDecl, InstDecl};

/// Appends the instances of a cell, or of the module that stands at its name's place.
pub fn add_insts(
    alloc: Global,
    hierarchy: &Hierarchy,
    scope: &Scope,
    items: &mut Seq<Item>,
    cell: &Name,
    list: &[InstDecl],
) -> Result<(), VerFault>
    ensures { Gives Fails (λ _. items.new) result
        (fold_ok (spec.add_inst hierarchy.now.wide scope.now (inner_of hierarchy.now cell.now) cell.now) items.old list.now) }
{
    for decl in list {
        add_inst(alloc, hierarchy, scope, items, cell, decl)?;
    }
    Ok(())
}

#[tactic(auto, unfolding(crate::specs::Items::add_inst, crate::specs::Items::inst_of))]
fn add_inst(
    alloc: Global,
    hierarchy: &Hierarchy,
    scope: &Scope,
    items: &mut Seq<Item>,
    cell: &Name,
    decl: &InstDecl,
) -> Result<(), VerFault>
    ensures { Gives Fails (λ _. items.new) result
        (spec.add_inst hierarchy.now.wide scope.now (inner_of hierarchy.now cell.now) cell.now items.old decl.now) }
{
    let place = hierarchy.names.place(cell);
    let conns = conns_of(alloc, hierarchy, scope, place, decl.conns.as_slice())?;
    let cell = cell.copy(alloc)?;
    let name = decl.name.copy(alloc)?;
    items.push(Item::Inst { cell, name, conns })?;
    Ok(())
}

/// The connections of an instance of the module at a place, or of a cell.
fn conns_of(
    alloc: Global,
    hierarchy: &Hierarchy,
    scope: &Scope,
    place: usize,
    list: &[ConnDecl],
) -> Result<Seq<Conn>, VerFault>
    ensures { Gives Fails (λ conns. conns) result
        (spec.conns_of hierarchy.now.wide scope.now (slice_get hierarchy.now.scopes place) list.now) }
{
    if hierarchy.takes_any_width(place) {
        wide_conns(alloc, scope, list)
    } else {
        plain_conns(alloc, hierarchy, scope, place, list)
    }
}

/// Connections each of its pin's width.
#[tactic(auto, unfolding(crate::specs::Items::plain_conns))]
fn plain_conns(
    alloc: Global,
    hierarchy: &Hierarchy,
    scope: &Scope,
    place: usize,
    list: &[ConnDecl],
) -> Result<Seq<Conn>, VerFault>
    ensures { Gives Fails (λ conns. conns) result (spec.plain_conns scope.now (slice_get hierarchy.now.scopes place) list.now) }
{
    check_pins(alloc, list)?;
    conns(alloc, hierarchy, scope, place, list)
}

fn conns(
    alloc: Global,
    hierarchy: &Hierarchy,
    scope: &Scope,
    place: usize,
    list: &[ConnDecl],
) -> Result<Seq<Conn>, VerFault>
    ensures { Gives Fails (λ conns. conns) result (each (spec.conn_of scope.now (slice_get hierarchy.now.scopes place)) list.now) }
{
    let mut found = Seq::from_vec(Vec::with_capacity(alloc, list.len())?);
    for decl in list {
        let conn = conn(alloc, hierarchy, scope, place, decl)?;
        found.push(conn)?;
    }
    Ok(found)
}

/// A connection. Width at its `.` comes where the wires are not as many as the pin has.
#[tactic(auto, unfolding(crate::specs::Items::conn_of))]
fn conn(
    alloc: Global,
    hierarchy: &Hierarchy,
    scope: &Scope,
    place: usize,
    decl: &ConnDecl,
) -> Result<Conn, VerFault>
    ensures { Gives Fails (λ conn. conn) result (spec.conn_of scope.now (slice_get hierarchy.now.scopes place) decl.now) }
{
    let pin = decl.pin.copy(alloc)?;
    match &decl.parts {
        None => Ok(Conn { pin, wires: None }),
        Some(parts) => {
            let wires = wires_of(alloc, scope, parts.as_slice())?;
            if !hierarchy.fits(place, &decl.pin, wires.len()) {
                return Err(VerFault::Width(decl.offset));
            }
            Ok(Conn {
                pin,
                wires: Some(wires),
            })
        }
    }
}
