//! The cells that are cut out of a flat netlist.
ghost use Rattle.std.specs.Prelude.{◌≡◌, ◌++◌, ◌<◌, length, map, All, IfOk, OnOk};
ghost use Rattle.link_defs.specs.declared.cuts.CutPin.{CutPin as PinRecord};
ghost use Rattle.link_defs.specs.Cuts.{cut_cells as spec_cells, IsFitItem};
ghost use Rattle.link_items.specs.Items.{scope_of};
ghost use Rattle.link_cuts.specs.Groups.{IsPlaced, IsFitIn, cell_on, item_at, pin_on};

use crate::groups::groups_of;
use link_defs::{CutCell, CutFault, CutItem, CutPin};
use link_items::{Instance, Netlist, full_name};
use sdcv_base::Seq;
use std::alloc::{AllocError, Global};

/// The instances that are cut out of modules, in each instance of their module, in the order in which these are met.
pub fn cut_cells(
    alloc: Global,
    netlist: &Netlist,
    scopes: &Seq<Instance>,
    items: &Seq<CutItem>,
) -> Result<Seq<CutCell>, AllocError>
    requires scopes { All (IsPlaced netlist.now.source.now) scopes.now }
    requires items { All (IsFitItem netlist.now.source.now) items.now }
    ensures { IfOk result (λ cells. cells ≡ spec_cells items.now (map (scope_of netlist.now.source.now) scopes.now)) }
{
    let groups = groups_of(alloc, netlist, items)?;
    let mut cells = Seq::new(alloc);
    for k in 0..scopes.len() {
        let scope = scopes.item(k);
        push_cells(alloc, &mut cells, scope, items, groups.item(scope.body))?;
    }
    Ok(cells)
}

/// Appends the instances at some places, where their module stands.
fn push_cells(
    alloc: Global,
    cells: &mut Seq<CutCell>,
    scope: &Instance,
    items: &Seq<CutItem>,
    places: &Seq<usize>,
) -> Result<(), AllocError>
    requires fit { All (IsFitIn (length scope.now.nets) items.now) places.now }
    ensures { OnOk result (cells.new ≡ cells.old ++ map (cell_on scope.now) (map (item_at items.now) places.now)) }
{
    for k in 0..places.len() {
        cells.push(cell_in(alloc, scope, items.item(places.at(k)))?)?;
    }
    Ok(())
}

/// A cut instance, where its module stands.
fn cell_in(alloc: Global, scope: &Instance, item: &CutItem) -> Result<CutCell, AllocError>
    requires { All (λ (p : PinRecord). p.net < length scope.now.nets) item.now.pins }
    ensures { IfOk result (λ cell. cell ≡ cell_on scope.now item.now) }
{
    Ok(CutCell {
        cell: item.cell.copy(alloc)?,
        name: full_name(alloc, &scope.prefix, &item.name)?,
        clocked: item.clocked,
        pins: pins_on(alloc, &scope.nets, &item.pins)?,
        fault: copied_fault(alloc, &item.fault)?,
    })
}

/// The pins of a cut instance, where its module stands.
fn pins_on(alloc: Global, nets: &Seq<usize>, pins: &Seq<CutPin>) -> Result<Seq<CutPin>, AllocError>
    requires { All (λ (p : PinRecord). p.net < length nets.now) pins.now }
    ensures { IfOk result (λ list. list ≡ map (pin_on nets.now) pins.now) }
{
    let mut list = Seq::new(alloc);
    for k in 0..pins.len() {
        let pin = pins.item(k);
        list.push(CutPin {
            name: pin.name.copy(alloc)?,
            way: pin.way,
            net: nets.at(pin.net),
        })?;
    }
    Ok(list)
}

/// The same fault, if there is one.
fn copied_fault(alloc: Global, fault: &Option<CutFault>) -> Result<Option<CutFault>, AllocError>
    ensures { IfOk result (λ copied. copied ≡ fault.now) }
{
    match fault {
        None => Ok(None),
        Some(CutFault::Stray(name)) => Ok(Some(CutFault::Stray(name.copy(alloc)?))),
        Some(CutFault::Tied(name)) => Ok(Some(CutFault::Tied(name.copy(alloc)?))),
    }
}
