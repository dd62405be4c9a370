//! The cubes of the functions of a design.
ghost use Rattle.std.specs.Prelude.{◌≡◌, ◌+◌, ◌≤◌, length, IfOk, OnOk};
ghost use Rattle.net_model.specs.Cycles.{reg_capture};
ghost use Rattle.net_model.specs.Mentions.{IsRegOver};
ghost use Rattle.net_model.specs.Netlist.{IsSound};
ghost use Rattle.cnf_encode.specs.CellLists.{IsCellAt, AreGateCells, AreRegCells, IsGrown, IsKnown, AreAt};
ghost use Rattle.frame_unroll.specs.Counted.{capture_places};
ghost use Rattle.cnf_encode.specs.Cells.{AreCells};

use crate::cell_lists::CellList;
use frame_unroll::capture_places;
use net_model::{Design, Reg, capture_func};
use prime_cubes::Cell;
use query_model::Coding;
use sdcv_base::Seq;
use std::alloc::{AllocError, Global};

/// The cubes of the functions of a design's gates, and of what its registers capture. Equal functions have them in common.
#[derive(Drop)]
pub struct Cells {
    list: CellList,
    gates: Seq<usize>,
    regs: Seq<usize>,
}

impl Cells {
    /// The cubes that a coding takes of a design.
    pub fn of(alloc: Global, design: &Design, coding: Coding) -> Result<Cells, AllocError>
        requires sound { IsSound design.now }
        ensures cells { IfOk result (AreCells design.now) }
        ensures coding { IfOk result (λ cells. cells.list.coding ≡ coding) }
    {
        let mut list = CellList::new(alloc, coding);
        let gates = gate_cells(alloc, design, &mut list)?;
        let regs = reg_cells(alloc, design, &mut list)?;
        Ok(Cells { list, gates, regs })
    }

    /// The cubes of the function of a gate.
    pub fn gate(&self, k: usize) -> &Cell
        requires { IsKnown self.now.list self.now.gates k }
        ensures { AreAt self.now.list self.now.gates k result.now }
    {
        self.list.cell(self.gates.at(k))
    }

    /// The cubes of what a register captures.
    pub fn reg(&self, r: usize) -> &Cell
        requires { IsKnown self.now.list self.now.regs r }
        ensures { AreAt self.now.list self.now.regs r result.now }
    {
        self.list.cell(self.regs.at(r))
    }
}

/// The places of the cubes of all gates.
fn gate_cells(alloc: Global, design: &Design, list: &mut CellList) -> Result<Seq<usize>, AllocError>
    requires sound { IsSound design.now }
    ensures cells { IfOk result (AreGateCells design.now list.new) }
    ensures grown { OnOk result (IsGrown list.old list.new) }
{
    let mut found = Seq::new(alloc);
    for k in 0..design.gates.len() {
        let gate = design.gates.item(k);
        found.push(list.place(alloc, &gate.func, gate.ins.len())?)?;
    }
    Ok(found)
}

/// The places of the cubes of what all registers capture.
fn reg_cells(alloc: Global, design: &Design, list: &mut CellList) -> Result<Seq<usize>, AllocError>
    requires sound { IsSound design.now }
    ensures cells { IfOk result (AreRegCells design.now list.new) }
    ensures grown { OnOk result (IsGrown list.old list.new) }
{
    let mut found = Seq::new(alloc);
    for r in 0..design.regs.len() {
        found.push(reg_cell(alloc, design.regs.item(r), list)?)?;
    }
    Ok(found)
}

/// The place of the cubes of what a register captures.
fn reg_cell(alloc: Global, reg: &Reg, list: &mut CellList) -> Result<usize, AllocError>
    requires few { length reg.now.ins ≤ 6 }
    requires over { IsRegOver (length reg.now.ins + 1) reg.now }
    ensures is { IfOk result (λ place. IsCellAt list.new place (reg_capture reg.now) (capture_places reg.now)) }
    ensures grown { OnOk result (IsGrown list.old list.new) }
{
    let func = capture_func(alloc, reg)?;
    list.place(alloc, &func, capture_places(reg))
}
