//! Which instances are cut out.
ghost use Rattle.std.specs.Prelude.{◌≡◌};
ghost use Rattle.netlist_types.specs.Lawful.{module_of};
ghost use Rattle.link_defs.specs.Hierarchy.{cell_of};
ghost use Rattle.cut_source.specs.Cuttable as spec;
ghost use Rattle.cut_source.specs.Cuttable.{plan};

use cell_types::{CellKind, Keeps};
use glob::matches;
use link_items::{Netlist, Referent};
use netlist_types::Item;
use sdcv_base::{Name, Seq};

/// Whether something is kept from cycle to cycle.
fn is_something(keeps: Keeps) -> bool
    ensures { result ≡ spec.is_something keeps }
{
    match keeps {
        Keeps::Nothing => false,
        Keeps::Bits | Keeps::Memory => true,
    }
}

/// Whether such a cell can't be modelled, and keeps something.
fn is_closed(kind: &CellKind) -> bool
    ensures { result ≡ spec.is_closed kind.now }
{
    match kind {
        CellKind::Comb(_) => false,
        CellKind::Flop(_) => false,
        CellKind::Gate(_) => false,
        CellKind::Other(other) => is_something(other.keeps),
    }
}

/// Whether an instance of this reference can be cut out.
fn can_be_cut(netlist: &Netlist, reference: &Name) -> bool
    ensures { result ≡ spec.is_cuttable (module_of netlist.now.source.now reference.now) (cell_of netlist.now.library.now reference.now) }
{
    match netlist.referent(reference) {
        Referent::Module(place) => netlist.source.modules.item(place).items.len() == 0,
        Referent::Cell(place) => is_closed(&netlist.library.cells.item(place).kind),
        Referent::Unknown => true,
    }
}

/// Whether one of these patterns matches the reference.
fn is_wanted(patterns: &[Name], reference: &Name) -> bool
    ensures { result ≡ spec.is_wanted patterns.now reference.now }
{
    patterns.iter().any(|pattern| matches(pattern.as_bytes(), reference.as_bytes(), false))
}

/// Whether each instance of this reference is cut out.
pub(crate) fn is_cut_reference(netlist: &Netlist, free: &Seq<Name>, reference: &Name) -> bool
    ensures { result ≡ spec.is_cut_reference (plan netlist.now.source.now netlist.now.library.now free.now) reference.now }
{
    is_wanted(free.as_slice(), reference) && can_be_cut(netlist, reference)
}

/// Whether an item is left.
pub(crate) fn is_left(netlist: &Netlist, free: &Seq<Name>, item: &Item) -> bool
    ensures { result ≡ spec.is_left (plan netlist.now.source.now netlist.now.library.now free.now) item.now }
{
    match item {
        Item::Inst { cell, .. } => !is_cut_reference(netlist, free, cell),
        Item::Prim { .. } => true,
        Item::Copy { .. } => true,
    }
}
