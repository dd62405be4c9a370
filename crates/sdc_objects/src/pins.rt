//! The pins of cells, by their full names.
ghost use Rattle.std.specs.Prelude.{◌≡◌, ◌++◌, IfOk, OnOk};
ghost use Rattle.sdcv_base.specs.Seqs.{each_at};
ghost use Rattle.sdc_objects.specs.Tables.{IsTablesOf};
ghost use Rattle.sdc_objects.specs.Things as spec;

use crate::scopes::Scope;
use crate::things::{Thing, add_where};
use glob::{Owner, matches};
use linked_types::CellName;
use script_types::Query;
use sdcv_base::{Name, Seq};
use std::alloc::{AllocError, Global};

/// Adds the pins whose full names a pattern matches: those of one cell, where it can name pins of that cell alone.
pub(crate) fn add_pins(
    alloc: Global,
    scope: &Scope,
    query: &Query,
    found: &mut Seq<Thing>,
) -> Result<(), AllocError>
    requires { IsTablesOf scope.now.linked.now scope.now.tables.now }
    ensures { OnOk result (found.new ≡ found.old ++ each_at (spec.pins_named query.now) 0 scope.now.linked.now.names.cells) }
{
    let cells = &scope.linked.names.cells;
    let owner = scope.tables.cells.owner(alloc, &query.pattern, query.hier)?;
    match owner {
        Owner::Nobody => Ok(()),
        Owner::One(k) => add_pins_of(alloc, query, k, cells.item(k), found),
        Owner::Many => add_all_pins(alloc, query, cells, found),
    }
}

fn add_all_pins(
    alloc: Global,
    query: &Query,
    cells: &Seq<CellName>,
    found: &mut Seq<Thing>,
) -> Result<(), AllocError>
    ensures { OnOk result (found.new ≡ found.old ++ each_at (spec.pins_named query.now) 0 cells.now) }
{
    for k in 0..cells.len() {
        add_pins_of(alloc, query, k, cells.item(k), found)?;
    }
    Ok(())
}

fn add_pins_of(
    alloc: Global,
    query: &Query,
    k: usize,
    cell: &CellName,
    found: &mut Seq<Thing>,
) -> Result<(), AllocError>
    ensures { OnOk result (found.new ≡ found.old ++ spec.pins_named query.now k cell.now) }
{
    for place in 0..cell.pins.len() {
        let pin = cell.pins.item(place);
        let named = is_pin_named(alloc, query, &cell.name, &pin.name)?;
        add_where(named, Thing::Pin(k, place), found)?;
    }
    Ok(())
}

fn is_pin_named(alloc: Global, query: &Query, cell: &Name, pin: &Name) -> Result<bool, AllocError>
    ensures { IfOk result (λ named. named ≡ spec.names query.now (spec.pin_name cell.now pin.now)) }
{
    let mut name = Vec::from_slice(alloc, cell.as_bytes())?;
    name.push(b'/')?;
    name.extend_from_slice(pin.as_bytes())?;
    Ok(matches(query.pattern.as_bytes(), name.as_slice(), query.hier))
}
