//! The outputs of cells and parts.
ghost use Rattle.std.specs.Prelude.{◌≡◌, ◌++◌, [], if◌then◌else◌, map, IfOk, OnOk};
ghost use Rattle.cell_types.specs.declared.libraries.CombOut.{CombOut as CombOutRecord};
ghost use Rattle.cell_types.specs.declared.libraries.FlopOut.{FlopOut as FlopOutRecord};
ghost use Rattle.net_model.specs.Netlist.{gate_nets};
ghost use Rattle.net_model.specs.declared.netlist.RegOut.{RegOut as RegOutRecord};
ghost use Rattle.link_defs.specs.CellNames.{out_pins};
ghost use Rattle.link_defs.specs.Circuits.{part_outs, part_drives};
ghost use Rattle.link_defs.specs.Designs.{is_on_tree};
ghost use Rattle.net_link.specs.Numbers.{number_in};

use crate::numbers::Numbering;
use cell_types::{CellKind, CombOut, FlopOut};
use link_defs::Part;
use net_model::{Gate, RegOut};
use sdcv_base::{Name, Seq};
use std::alloc::{AllocError, Global};

/// The names of outputs.
fn comb_names(alloc: Global, outs: &Seq<CombOut>) -> Result<Seq<Name>, AllocError>
    ensures { IfOk result (λ names. names ≡ map (λ (o : CombOutRecord). o.name) outs.now) }
{
    let mut names = Seq::new(alloc);
    for k in 0..outs.len() {
        let name = outs.item(k).name.copy(alloc)?;
        names.push(name)?;
    }
    Ok(names)
}

/// The names of a flop's outputs.
fn flop_names(alloc: Global, outs: &Seq<FlopOut>) -> Result<Seq<Name>, AllocError>
    ensures { IfOk result (λ names. names ≡ map (λ (o : FlopOutRecord). o.name) outs.now) }
{
    let mut names = Seq::new(alloc);
    for k in 0..outs.len() {
        let name = outs.item(k).name.copy(alloc)?;
        names.push(name)?;
    }
    Ok(names)
}

/// The output pins of a cell.
pub(crate) fn out_names(alloc: Global, kind: &CellKind) -> Result<Seq<Name>, AllocError>
    ensures { IfOk result (λ names. names ≡ out_pins kind.now) }
{
    match kind {
        CellKind::Comb(outs) => comb_names(alloc, outs),
        CellKind::Flop(flop) => flop_names(alloc, &flop.outs),
        CellKind::Gate(gate) => {
            let name = gate.out.copy(alloc)?;
            Seq::one(alloc, name)
        }
        CellKind::Other(_) => Ok(Seq::new(alloc)),
    }
}

/// The numbers of the nets that gates drive.
fn gate_numbers(alloc: Global, n: &Numbering, gates: &Seq<Gate>) -> Result<Seq<usize>, AllocError>
    ensures { IfOk result (λ list. list ≡ map (number_in n.now.numbers.now n.now.nets) (gate_nets gates.now)) }
{
    let mut list = Seq::new(alloc);
    for k in 0..gates.len() {
        let net = n.number(gates.item(k).out);
        list.push(net)?;
    }
    Ok(list)
}

/// The numbers of the nets that a register drives.
fn reg_numbers(alloc: Global, n: &Numbering, outs: &Seq<RegOut>) -> Result<Seq<usize>, AllocError>
    ensures { IfOk result (λ list. list ≡ map (number_in n.now.numbers.now n.now.nets) (map (λ (o : RegOutRecord). o.net) outs.now)) }
{
    let mut list = Seq::new(alloc);
    for k in 0..outs.len() {
        let net = n.number(outs.at(k).net);
        list.push(net)?;
    }
    Ok(list)
}

/// The numbers of the nets that a part drives: a clock gate has that of its enable.
fn out_numbers(alloc: Global, n: &Numbering, part: &Part) -> Result<Seq<usize>, AllocError>
    ensures { IfOk result (λ list. list ≡ map (number_in n.now.numbers.now n.now.nets) (part_outs part.now)) }
{
    match part {
        Part::Comb { gates, .. } => gate_numbers(alloc, n, gates),
        Part::Flop { reg, .. } => reg_numbers(alloc, n, &reg.outs),
        Part::Gate { out, .. } => Seq::one(alloc, n.number(*out)),
    }
}

/// The numbers of those that it drives with data: a clock gate drives none.
pub(crate) fn drive_numbers(
    alloc: Global,
    n: &Numbering,
    part: &Part,
) -> Result<Seq<usize>, AllocError>
    ensures { IfOk result (λ list. list ≡ map (number_in n.now.numbers.now n.now.nets) (part_drives part.now)) }
{
    match part {
        Part::Comb { gates, .. } => gate_numbers(alloc, n, gates),
        Part::Flop { reg, .. } => reg_numbers(alloc, n, &reg.outs),
        Part::Gate { .. } => Ok(Seq::new(alloc)),
    }
}

/// The numbers of the nets that a part drives in the design: a part of the clock tree drives none.
pub(crate) fn design_outs(
    alloc: Global,
    n: &Numbering,
    part: &Part,
) -> Result<Seq<usize>, AllocError>
    ensures { IfOk result (λ list. list
        ≡ (if is_on_tree n.now.tree.now part.now then [] else map (number_in n.now.numbers.now n.now.nets) (part_outs part.now))) }
{
    if n.is_on_tree(part) {
        return Ok(Seq::new(alloc));
    }
    out_numbers(alloc, n, part)
}
