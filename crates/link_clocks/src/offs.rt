//! The registers and clock gates that the clock does not come to: as cells that are cut out, and what is left without them.
ghost use Rattle.std.specs.Prelude.{◌≡◌, ◌<◌, false, List, [], length, slice_set, map, filter, flat_map, ◌++◌, IfOk, IfSome, IfNone, OnOk, Option, Some, None};
ghost use Rattle.cell_types.specs.declared.libraries.Cell.{Cell as CellRecord};
ghost use Rattle.link_defs.specs.declared.circuits.Part.TheVariants as part;
ghost use Rattle.link_defs.specs.CellNames.{Leaf};
ghost use Rattle.link_defs.specs.Judged.{is_off, on_clock, off_cell};
ghost use Rattle.link_items.specs.Items.{IsCellAt, IsLeafAt, AreLeavesAt};
ghost use Rattle.link_clocks.specs.Offs.{is_place_off, is_place_on, off_cells};

use crate::marks::is_marked;
use crate::pins::off_pins;
use cell_types::{Cell, Library};
use link_defs::{CutCell, Part};
use link_items::LeafPlace;
use sdcv_base::Seq;
use std::alloc::{AllocError, Global};

/// Whether a part is a register or a clock gate that the clock does not come to.
fn is_off(even: &Seq<bool>, part: &Part) -> bool
    ensures { result ≡ is_off even.now part.now }
{
    match part {
        Part::Comb { .. } => false,
        Part::Flop { clock, .. } => !is_marked(even, *clock),
        Part::Gate { clock, .. } => !is_marked(even, *clock),
    }
}

/// Whether the part of a leaf is one.
fn is_leaf_off(even: &Seq<bool>, parts: &Seq<Part>, leaf: &LeafPlace) -> bool
    ensures { result ≡ is_place_off even.now parts.now leaf.now }
{
    match parts.as_slice().get(leaf.part) {
        Some(part) => is_off(even, part),
        None => false,
    }
}

/// The parts, each of those as a part of which nothing is left. They are changed in place.
pub(crate) fn left_parts(alloc: Global, even: &Seq<bool>, parts: Seq<Part>) -> Seq<Part>
    ensures { result ≡ map (on_clock even.now) parts }
{
    let mut left = parts.into_vec();
    for place in 0..left.len() {
        if is_off(even, &left[place]) {
            empty(alloc, &mut left, place);
        }
    }
    Seq::from_vec(left)
}

/// Leaves nothing of the part at a place.
fn empty(alloc: Global, parts: &mut Vec<Part>, place: usize)
    requires { place < length parts.old.items }
    ensures { parts.new.items ≡ slice_set parts.old.items place (part.Comb false [] []) }
{
    parts[place] = Part::Comb {
        buffer: false,
        ins: Seq::new(alloc),
        gates: Seq::new(alloc),
    };
}

/// The leaves without them.
pub(crate) fn left_leaves(
    even: &Seq<bool>,
    parts: &Seq<Part>,
    leaves: Seq<LeafPlace>,
) -> Seq<LeafPlace>
    ensures { result ≡ filter (is_place_on even.now parts.now) leaves }
{
    let mut left = leaves.into_vec();
    left.retain(|leaf| !is_leaf_off(even, parts, leaf));
    Seq::from_vec(left)
}

/// Appends them as cells that are cut out.
pub(crate) fn push_off(
    alloc: Global,
    library: &Library,
    even: &Seq<bool>,
    parts: &Seq<Part>,
    leaves: &Seq<LeafPlace>,
    cells: &mut Seq<CutCell>,
) -> Result<(), AllocError>
    requires { (found : List Leaf) × AreLeavesAt library.now parts.now leaves.now found }
    ensures { OnOk result ((found : List Leaf) → AreLeavesAt library.now parts.now leaves.now found
        → cells.new ≡ cells.old ++ flat_map (off_cells even.now) found) }
{
    for k in 0..leaves.len() {
        let leaf = leaves.item(k);
        if is_leaf_off(even, parts, leaf) {
            push_cell(alloc, library, parts.item(leaf.part), leaf, cells)?;
        }
    }
    Ok(())
}

/// Appends the cell that a leaf is, if it is one.
fn push_cell(
    alloc: Global,
    library: &Library,
    part: &Part,
    leaf: &LeafPlace,
    cells: &mut Seq<CutCell>,
) -> Result<(), AllocError>
    ensures { OnOk result ((l : Leaf) → leaf.now.name ≡ l.name → IsCellAt library.now leaf.now.cell l.cell → part.now ≡ l.part
        → cells.new ≡ cells.old ++ off_cell l) }
{
    match cell_of(library, leaf.cell) {
        None => Ok(()),
        Some(cell) => {
            let pins = off_pins(alloc, cell, part)?;
            cells.push(CutCell {
                cell: cell.name.copy(alloc)?,
                name: leaf.name.copy(alloc)?,
                clocked: false,
                pins,
                fault: None,
            })?;
            Ok(())
        }
    }
}

/// The cell at a place of a library, if there is one.
fn cell_of(library: &Library, place: Option<usize>) -> Option<&Cell>
    ensures some { IfSome result (λ cell. (c : Option CellRecord) → IsCellAt library.now place c → c ≡ Some cell.now) }
    ensures none { IfNone result ((c : Option CellRecord) → IsCellAt library.now place c → c ≡ None) }
{
    match place {
        Some(place) => library.cells.as_slice().get(place),
        None => None,
    }
}
