//! Paths by the names of their nets.
ghost use Rattle.std.specs.Prelude.{◌≡◌, ◌==◌, IfOk, IfSome, map, find, option_copied};
ghost use Rattle.net_model.specs.Netlist.{IsSound};
ghost use Rattle.net_model.specs.Fits.{Fits};
ghost use Rattle.net_model.specs.Cycles.{IsSettled};
ghost use Rattle.shown_runs.specs.Lates.{IsNamedPath, drives, first_name};

use crate::paths::carried_path;
use linked_types::{CellName, Linked, Names, NetName};
use net_model::{Claim, Cycle};
use sdcv_base::{Name, Seq};
use std::alloc::{AllocError, Global};

/// The first full name of a net.
fn named<'a>(nets: &'a [NetName], net: usize) -> Option<&'a NetName>
    ensures { option_copied result ≡ find (λ (n : NetName). n.net == net) nets.now }
{
    nets.iter().find(|named| named.net == net)
}

/// Whether a cell drives a net.
fn drives(cell: &CellName, net: usize) -> bool
    ensures { result ≡ drives net cell.now }
{
    cell.outs.as_slice().iter().any(|out| *out == net)
}

/// The first cell that drives a net.
fn driver<'a>(cells: &'a [CellName], net: usize) -> Option<&'a CellName>
    ensures { option_copied result ≡ find (drives net) cells.now }
{
    cells.iter().find(|cell| drives(cell, net))
}

fn first_name(alloc: Global, names: &Names, net: usize) -> Result<Name, AllocError>
    ensures { IfOk result (λ name. name ≡ first_name names.now net) }
{
    if let Some(named) = named(names.nets.as_slice(), net) {
        return named.name.copy(alloc);
    }
    match driver(names.cells.as_slice(), net) {
        Some(cell) => cell.name.copy(alloc),
        None => Name::new(alloc, b""),
    }
}

fn first_names(alloc: Global, names: &Names, path: &[usize]) -> Result<Seq<Name>, AllocError>
    ensures { IfOk result (λ list. list ≡ map (first_name names.now) path.now) }
{
    let mut list = Seq::new(alloc);
    for net in path {
        list.push(first_name(alloc, names, *net)?)?;
    }
    Ok(list)
}

/// A path that carries the change from the start to the end in a cycle, by the first full name of each net, or that of the
/// cell that drives it where it has none.
pub(crate) fn named_path(
    alloc: Global,
    linked: &Linked,
    claim: &Claim,
    cycle: &Cycle,
    stale: bool,
) -> Result<Option<Seq<Name>>, AllocError>
    requires sound { IsSound linked.now.design }
    requires fits { Fits linked.now.design claim.now }
    requires settled { IsSettled linked.now.design cycle.now }
    ensures { IfOk result (λ path. IfSome path (IsNamedPath linked.now claim.now cycle.now stale)) }
{
    let Some(nets) = carried_path(alloc, &linked.design, claim, cycle, stale)? else {
        return Ok(None);
    };
    let names = first_names(alloc, &linked.names, nets.as_slice())?;
    Ok(Some(names))
}
