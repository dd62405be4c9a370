//! The nets that lead through gates to some registers.
ghost use Rattle.std.specs.Prelude.{◌≡◌, ◌<◌, length, IfOk};
ghost use Rattle.net_model.specs.Netlist.{AllBelow, IsSound};
ghost use Rattle.inv_candidates.specs.Leading.{AreAdded, AreLeading, AreSwept, IsPassed, pin_nets};

use net_model::Design;
use sdcv_base::Seq;
use std::alloc::{AllocError, Global};

/// A mark for each net that a pin of one of these registers reads, or from which gates lead to such a net.
pub(crate) fn leading_nets(
    alloc: Global,
    design: &Design,
    regs: &Seq<usize>,
) -> Result<Seq<bool>, AllocError>
    requires sound { IsSound design.now }
    requires regs { AllBelow (length design.now.regs) regs.now }
    ensures { IfOk result (AreLeading design.now regs.now) }
{
    let mut marks = Seq::filled(alloc, false, design.nets)?;
    mark_pins(design, regs, &mut marks);
    sweep(design, &mut marks);
    Ok(marks)
}

/// Marks the nets that the pins of these registers read.
fn mark_pins(design: &Design, regs: &Seq<usize>, marks: &mut Seq<bool>)
    requires sound { IsSound design.now }
    requires regs { AllBelow (length design.now.regs) regs.now }
    requires len { length marks.old ≡ design.now.nets }
    ensures { AreAdded (pin_nets design.now regs.now) marks.old marks.new }
{
    for k in 0..regs.len() {
        mark_all(&design.regs.item(regs.at(k)).ins, marks);
    }
}

/// Marks these nets.
fn mark_all(nets: &Seq<usize>, marks: &mut Seq<bool>)
    requires { AllBelow (length marks.old) nets.now }
    ensures { AreAdded nets.now marks.old marks.new }
{
    for k in 0..nets.len() {
        marks.put(nets.at(k), true);
    }
}

/// Marks the nets from which gates lead to a marked one. A gate reads no output of a later gate, so one look at each gate, from
/// the last to the first, is enough.
fn sweep(design: &Design, marks: &mut Seq<bool>)
    requires sound { IsSound design.now }
    requires len { length marks.old ≡ design.now.nets }
    ensures { AreSwept design.now 0 marks.old marks.new }
{
    let count = design.gates.len();
    for seen in 0..count {
        pass(design, count - 1 - seen, marks);
    }
}

/// Marks the nets that a gate reads, where its output is marked.
fn pass(design: &Design, place: usize, marks: &mut Seq<bool>)
    requires sound { IsSound design.now }
    requires place { place < length design.now.gates }
    requires len { length marks.old ≡ design.now.nets }
    ensures { IsPassed design.now place marks.old marks.new }
{
    let gate = design.gates.item(place);
    if marks.at(gate.out) {
        mark_all(&gate.ins, marks);
    }
}
