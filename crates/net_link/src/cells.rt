//! The cells of a design by name.
ghost use Rattle.std.specs.Prelude.{◌≡◌, ◌+◌, ◌<◌, ◌^◌, ◌++◌, [], ℕ, List, Option, All, length, map, IfOk, OnOk};
ghost use Rattle.net_model.specs.declared.netlist.Gate.{Gate};
ghost use Rattle.icg_rewrite.specs.Rewritten.{rewritten};
ghost use Rattle.linked_types.specs.declared.names.CellName.{CellName as CellNameRecord};
ghost use Rattle.link_defs.specs.CellNames.{Leaf, cell_names as spec_names, cell_name as spec_name, reg_of as spec_reg};
ghost use Rattle.link_defs.specs.Circuits.{part_regs};
ghost use Rattle.link_defs.specs.Designs.{number_by};
ghost use Rattle.link_defs.specs.GatedDesigns.{enabled_drivers};
ghost use Rattle.link_defs.specs.Links.{source_count};
ghost use Rattle.link_items.specs.declared.made.LeafPlace.{LeafPlace as LeafRecord};
ghost use Rattle.link_items.specs.Items.{AreLeavesAt};
ghost use Rattle.link_design.specs.Lawful.{IsLawfulCircuit};
ghost use Rattle.net_link.specs.Made.{IsGatedDesign};
ghost use Rattle.link_tops.specs.Clashes.{leaf_names};
ghost use Rattle.net_link.specs.Numbers.{number_in};
ghost use Rattle.net_link.specs.Places.{leaf_of, leaf_at, AreLeavesOf, ArePlacesOf};

use crate::designs::GatedDesign;
use crate::numbers::Numbering;
use crate::outs::design_outs;
use crate::pins::leaf_pins;
use cell_types::Library;
use icg_rewrite::Gated;
use link_circuit::FlatCircuit;
use link_defs::Part;
use link_items::LeafPlace;
use linked_types::CellName;
use sdcv_base::Seq;
use std::alloc::{AllocError, Global};

/// The leaves of a flat netlist by name, in their order, by the numbers of the rewritten design of its circuit.
pub fn cell_names(
    alloc: Global,
    library: &Library,
    flat: &FlatCircuit,
    made: &GatedDesign,
) -> Result<Seq<CellName>, AllocError>
    requires { (found : List Leaf) × AreLeavesAt library.now flat.now.circuit.parts flat.now.leaves found }
    ensures own { IfOk result (λ list. map (λ (c : CellNameRecord). c.name) list ≡ leaf_names flat.now.leaves) }
    ensures names { IfOk result (λ list. (order : List Gate) (g : IsGatedDesign flat.now.circuit order made.now) (found : List Leaf)
        → IsLawfulCircuit flat.now.circuit → AreLeavesAt library.now flat.now.circuit.parts flat.now.leaves found
        → list ≡ spec_names (number_by (enabled_drivers flat.now.circuit order g.gates)) (source_count flat.now.circuit) made.now.tree 0 found) }
    ensures usable { IfOk result (λ list. (order : List Gate) (found : List Leaf) → IsLawfulCircuit flat.now.circuit
        → IsGatedDesign flat.now.circuit order made.now → AreLeavesOf flat.now.circuit.parts found
        → AreLeavesAt library.now flat.now.circuit.parts flat.now.leaves found → ArePlacesOf (rewritten made.now.gated) list) }
{
    let design = &made.gated.design;
    let nets = net_count(&made.gated)?;
    let n = Numbering {
        numbers: &made.numbers,
        tree: &made.tree,
        nets,
        sources: design.nets.saturating_sub(design.gates.len()),
    };
    let list = names_of(alloc, library, &n, &flat.circuit.parts, &flat.leaves)?;
    Ok(list)
}

/// How many nets the rewritten design has.
pub(crate) fn net_count(gated: &Gated) -> Result<usize, AllocError>
    ensures { IfOk result (λ nets. nets ≡ gated.now.design.nets + length gated.now.gates) }
{
    match gated.design.nets.checked_add(gated.gates.len()) {
        Some(nets) => Ok(nets),
        // No memory holds so many.
        None => Err(AllocError),
    }
}

/// The names of leaves, registers counted from 0.
fn names_of(
    alloc: Global,
    library: &Library,
    n: &Numbering,
    parts: &Seq<Part>,
    leaves: &Seq<LeafPlace>,
) -> Result<Seq<CellName>, AllocError>
    requires { All (λ (x : LeafRecord). x.part < length parts.now) leaves.now }
    ensures { IfOk result (λ list. list ≡ spec_names (number_in n.now.numbers.now n.now.nets) n.now.sources n.now.tree.now 0
        (map (leaf_at library.now parts.now) leaves.now)) }
{
    let mut list = Seq::new(alloc);
    let mut reg = 0;
    for k in 0..leaves.len() {
        let leaf = leaves.item(k);
        let part = parts.item(leaf.part);
        let cell = cell_name(alloc, library, n, reg, leaf, part)?;
        list.push(cell)?;
        reg = next_reg(part, reg);
    }
    Ok(list)
}

/// A leaf by name, with the number of its register if it is one.
fn cell_name(
    alloc: Global,
    library: &Library,
    n: &Numbering,
    reg: usize,
    leaf: &LeafPlace,
    part: &Part,
) -> Result<CellName, AllocError>
    ensures { IfOk result (λ c. c ≡ spec_name (number_in n.now.numbers.now n.now.nets) n.now.sources n.now.tree.now reg
        (leaf_of library.now leaf.now part.now)) }
{
    let name = leaf.name.copy(alloc)?;
    let outs = design_outs(alloc, n, part)?;
    let pins = leaf_pins(alloc, library, n, reg, part, leaf.cell)?;
    Ok(CellName {
        name,
        reg: reg_of(part, reg),
        outs,
        pins,
    })
}

/// The register that a part is, of so many before it.
fn reg_of(part: &Part, before: usize) -> Option<usize>
    ensures { result ≡ spec_reg before part.now }
{
    match part {
        Part::Comb { .. } => None,
        Part::Flop { .. } => Some(before),
        Part::Gate { .. } => None,
    }
}

/// How many registers there are with this part.
fn next_reg(part: &Part, before: usize) -> usize
    requires { before + 1 < 2 ^ 64 }
    ensures { result ≡ before + length (part_regs part.now) }
{
    match part {
        Part::Comb { .. } => before,
        Part::Flop { .. } => before + 1,
        Part::Gate { .. } => before,
    }
}
