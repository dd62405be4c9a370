//! Which places of a design's gates and registers count.
ghost use Rattle.std.specs.Prelude.{◌≡◌, ◌≤◌, ◌+◌, map, length, IfOk};
ghost use Rattle.net_model.specs.Mentions.{IsRegOver};
ghost use Rattle.net_model.specs.Netlist.{IsSound};
ghost use Rattle.frame_unroll.specs.Counted.{AreCounted, gate_marks, reg_marks, capture_places};

use crate::places::counts;
use net_model::{Design, Reg, capture_func};
use query_model::Coding;
use sdcv_base::Seq;
use std::alloc::{AllocError, Global};

/// For each gate and each register a mark for each of its places, true where the place counts: those of its pins, and then
/// that of a register's own bit where one of its functions mentions it.
#[derive(Drop)]
pub struct CountedPlaces {
    pub gates: Seq<Seq<bool>>,
    pub regs: Seq<Seq<bool>>,
}

impl CountedPlaces {
    /// The places that count in a coding.
    pub fn of(alloc: Global, design: &Design, coding: Coding) -> Result<CountedPlaces, AllocError>
        requires sound { IsSound design.now }
        ensures { IfOk result (AreCounted coding design.now) }
    {
        Ok(CountedPlaces {
            gates: gate_places(alloc, design, coding)?,
            regs: reg_places(alloc, design, coding)?,
        })
    }
}

fn gate_places(alloc: Global, design: &Design, coding: Coding) -> Result<Seq<Seq<bool>>, AllocError>
    requires sound { IsSound design.now }
    ensures { IfOk result (λ gates. gates ≡ map (gate_marks coding) design.now.gates) }
{
    let mut found = Seq::new(alloc);
    for k in 0..design.gates.len() {
        let gate = design.gates.item(k);
        found.push(counts(alloc, &gate.func, gate.ins.len(), coding)?)?;
    }
    Ok(found)
}

fn reg_places(alloc: Global, design: &Design, coding: Coding) -> Result<Seq<Seq<bool>>, AllocError>
    requires sound { IsSound design.now }
    ensures { IfOk result (λ regs. regs ≡ map (reg_marks coding) design.now.regs) }
{
    let mut found = Seq::new(alloc);
    for r in 0..design.regs.len() {
        found.push(capture_counts(alloc, design.regs.item(r), coding)?)?;
    }
    Ok(found)
}

/// The places of a register's capture: its clear and its preset count too.
fn capture_counts(alloc: Global, reg: &Reg, coding: Coding) -> Result<Seq<bool>, AllocError>
    requires few { length reg.now.ins ≤ 6 }
    requires over { IsRegOver (length reg.now.ins + 1) reg.now }
    ensures { IfOk result (λ marks. marks ≡ reg_marks coding reg.now) }
{
    let func = capture_func(alloc, reg)?;
    counts(alloc, &func, capture_places(reg), coding)
}

/// How many places a register's capture has: its pins, and its own bit where one of its functions mentions it.
pub fn capture_places(reg: &Reg) -> usize
    requires { length reg.now.ins ≤ 6 }
    ensures { result ≡ capture_places reg.now }
{
    if reg.reads_own() {
        reg.ins.len() + 1
    } else {
        reg.ins.len()
    }
}
