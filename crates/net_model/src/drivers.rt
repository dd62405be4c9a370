//! The drivers of nets, and the order of gates.
ghost use Rattle.std.specs.Prelude.{◌≡◌, ℕ, ◌<◌, [], length, MatchOption, OnOk, IfErr, flat_map};
ghost use Rattle.net_model.specs.Netlist.{IsInRange, IsInOrder, driver_count, driven_nets, source_nets, reg_nets};
ghost use Rattle.net_model.specs.Markings.{AddsMarks, IsMarkedTwice, AreMarked};
ghost use Rattle.net_model.specs.Faults.{IsCause};

use crate::faults::DesignFault;
use crate::marks::{first_unmarked, mark, mark_all, mark_outs, unmarked_of};
use crate::netlist::Design;
use sdcv_base::Seq;
use std::alloc::Global;

/// Marks the nets that registers drive, up to one that is marked already.
fn mark_regs(design: &Design, marks: &mut Seq<bool>) -> Option<usize>
    requires range { IsInRange design.now }
    requires len { length marks.old ≡ design.now.nets }
    ensures { MatchOption result (AddsMarks (flat_map reg_nets design.now.regs) marks.old marks.new)
        (IsMarkedTwice (flat_map reg_nets design.now.regs) marks.old) }
{
    for r in 0..design.regs.len() {
        let reg = design.regs.item(r);
        if let Some(net) = mark_outs(reg, marks) {
            return Some(net);
        }
    }
    None
}

/// Marks the nets that inputs and registers drive, up to one that is marked already.
fn mark_sources(design: &Design, marks: &mut Seq<bool>) -> Option<usize>
    requires range { IsInRange design.now }
    requires len { length marks.old ≡ design.now.nets }
    ensures { MatchOption result (AddsMarks (source_nets design.now) marks.old marks.new) (IsMarkedTwice (source_nets design.now) marks.old) }
{
    if let Some(net) = mark_all(&design.inputs, marks) {
        return Some(net);
    }
    mark_regs(design, marks)
}

/// Marks the nets that gates drive, where those of inputs and registers are marked. A gate may read marked nets alone.
fn mark_gates(design: &Design, marks: &mut Seq<bool>) -> Result<(), DesignFault>
    requires range { IsInRange design.now }
    requires len { length marks.old ≡ design.now.nets }
    requires sources { AreMarked (source_nets design.now) marks.old }
    ensures len { OnOk result (length marks.new ≡ design.now.nets) }
    ensures driven { OnOk result (AreMarked (driven_nets design.now) marks.new) }
    ensures order { OnOk result (IsInOrder design.now) }
    ensures err { IfErr result (IsCause design.now) }
{
    for k in 0..design.gates.len() {
        let gate = design.gates.item(k);
        if let Some(_) = unmarked_of(&gate.ins, marks) {
            return Err(DesignFault::Order(k));
        }
        if mark(marks, gate.out) {
            return Err(DesignFault::ManyDrivers(gate.out));
        }
    }
    Ok(())
}

/// Checks that each net has one driver, and that gates read nets that are driven before.
pub fn check_drivers(alloc: Global, design: &Design) -> Result<(), DesignFault>
    requires { IsInRange design.now }
    ensures one { OnOk result ((net : ℕ) → net < design.now.nets → driver_count design.now net ≡ 1) }
    ensures order { OnOk result (IsInOrder design.now) }
    ensures err { IfErr result (IsCause design.now) }
{
    let mut marks = Seq::filled(alloc, false, design.nets)?;
    if let Some(net) = mark_sources(design, &mut marks) {
        return Err(DesignFault::ManyDrivers(net));
    }
    mark_gates(design, &mut marks)?;
    match first_unmarked(&marks) {
        None => Ok(()),
        Some(net) => Err(DesignFault::Undriven(net)),
    }
}
