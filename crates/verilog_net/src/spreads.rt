//! Connections of any width, of an instance that is of no module of the text.
ghost use Rattle.std.specs.Prelude.{◌≡◌, ◌++◌, [], IfOk, OnOk};
ghost use Rattle.texts.specs.Rules.{Gives};
ghost use Rattle.verilog_scope.specs.Fails.{Fails};
ghost use Rattle.verilog_scope.specs.Folds.{fold_ok};
ghost use Rattle.verilog_net.specs.Spreads as spec;

use crate::pins::check_pins;
use crate::wires::wires_of;
use netlist_types::{Conn, Wire};
use sdcv_base::{Name, Seq};
use std::alloc::{AllocError, Global};
use verilog_scope::{Scope, VerFault, indexed_name};
use verilog_syntax::ConnDecl;

/// The connections of an instance, of one bit each. `TwiceName` is a pin of two of them.
#[tactic(auto, unfolding(crate::specs::Spreads::wide_conns))]
pub fn wide_conns(alloc: Global, scope: &Scope, list: &[ConnDecl]) -> Result<Seq<Conn>, VerFault>
    ensures { Gives Fails (λ conns. conns) result (spec.wide_conns scope.now list.now) }
{
    let conns = spreads(alloc, scope, list)?;
    check_pins(alloc, conns.as_slice())?;
    Ok(conns)
}

fn spreads(alloc: Global, scope: &Scope, list: &[ConnDecl]) -> Result<Seq<Conn>, VerFault>
    ensures { Gives Fails (λ conns. conns) result (fold_ok (spec.add_spread scope.now) [] list.now) }
{
    let mut found = Seq::from_vec(Vec::with_capacity(alloc, list.len())?);
    for decl in list {
        add_spread(alloc, scope, &mut found, decl)?;
    }
    Ok(found)
}

/// Appends the connections of one bit that a connection is.
#[tactic(auto, unfolding(crate::specs::Spreads::add_spread))]
fn add_spread(
    alloc: Global,
    scope: &Scope,
    found: &mut Seq<Conn>,
    decl: &ConnDecl,
) -> Result<(), VerFault>
    ensures { Gives Fails (λ _. found.new) result (spec.add_spread scope.now found.old decl.now) }
{
    match &decl.parts {
        None => {
            let pin = decl.pin.copy(alloc)?;
            found.push(Conn { pin, wires: None })?;
            Ok(())
        }
        Some(parts) => {
            let wires = wires_of(alloc, scope, parts.as_slice())?;
            push_spread(alloc, found, &decl.pin, wires)?;
            Ok(())
        }
    }
}

fn push_spread(
    alloc: Global,
    found: &mut Seq<Conn>,
    pin: &Name,
    wires: Seq<Wire>,
) -> Result<(), AllocError>
    ensures { OnOk result (found.new ≡ found.old ++ spec.spread pin.now wires) }
{
    if wires.len() != 1 {
        return push_bits(alloc, found, pin, wires.as_slice());
    }
    let pin = pin.copy(alloc)?;
    found.push(Conn {
        pin,
        wires: Some(wires),
    })?;
    Ok(())
}

/// Appends a connection for each wire, of the bits of a pin from the most significant on.
fn push_bits(
    alloc: Global,
    found: &mut Seq<Conn>,
    pin: &Name,
    wires: &[Wire],
) -> Result<(), AllocError>
    ensures { OnOk result (found.new ≡ found.old ++ spec.bit_conns pin.now wires.now) }
{
    for (place, wire) in wires.iter().enumerate() {
        let conn = bit_conn(alloc, pin, wires.len() - 1 - place, *wire)?;
        found.push(conn)?;
    }
    Ok(())
}

/// The connection of one bit of a pin.
fn bit_conn(alloc: Global, pin: &Name, index: usize, wire: Wire) -> Result<Conn, AllocError>
    ensures { IfOk result (λ conn. conn ≡ spec.bit_conn pin.now index wire) }
{
    let pin = indexed_name(alloc, pin, index as u64)?;
    let mut wires = Seq::from_vec(Vec::with_capacity(alloc, 1)?);
    wires.push(wire)?;
    Ok(Conn {
        pin,
        wires: Some(wires),
    })
}
