//! What ends capture, as literals.
ghost use Rattle.std.specs.Prelude.{◌≡◌, ◌≤◌, ◌<◌, OnOk, IfOk, length};
ghost use Rattle.net_model.specs.Netlist.{IsSound, AllBelow};
ghost use Rattle.net_model.specs.Fits.{IsEndIn};
ghost use Rattle.net_model.specs.Mentions.{IsRegOver};
ghost use Rattle.net_model.specs.Cycles.{capture};
ghost use Rattle.and_graphs.specs.Graphs.{Means, Keeps};
ghost use Rattle.and_graphs.specs.declared.graphs.AndGraph.{AndGraph as Graph};
ghost use Rattle.claim_monitor.specs.Shown.{AreLiteralsFor, shown_cycle};
ghost use Rattle.claim_monitor.specs.Captured.{AreRegLiterals, LowersCapture, AreCaptureLiterals};

use crate::cycle_literals::Literals;
use crate::nets::pin_literals;
use and_graphs::AndGraph;
use net_model::{Args, Design, End, Reg, capture_func};
use sdcv_base::Seq;
use std::alloc::{AllocError, Global};

/// The literal of a register's capture, given those of its places.
pub(crate) fn reg_capture_literal(
    alloc: Global,
    reg: &Reg,
    args: &Args<u64>,
    graph: &mut AndGraph,
) -> Result<u64, AllocError>
    requires { IsRegOver 7 reg.now }
    ensures keeps { Keeps graph.old graph.new }
    ensures means { IfOk result (LowersCapture graph.old args.now reg.now graph.new) }
{
    let func = capture_func(alloc, reg)?;
    graph.lower(&func, args)
}

/// The literals that the pins of a register read, and that of its own bit at the place after them.
fn reg_literals(ins: &Seq<usize>, nets: &Seq<u64>, own: u64) -> Args<u64>
    requires few { length ins.now ≤ 6 }
    requires in_range { AllBelow (length nets.now) ins.now }
    ensures { AreRegLiterals ins.now nets.now own result }
{
    let mut args = pin_literals(ins, nets);
    args.set(ins.len(), own);
    args
}

/// The literal of the capture of a register.
fn next_literal(
    alloc: Global,
    design: &Design,
    literals: &Literals,
    r: usize,
    graph: &mut AndGraph,
) -> Result<u64, AllocError>
    requires sound { IsSound design.now }
    requires in_range { r < length design.now.regs }
    requires literals { AreLiteralsFor graph.old design.now literals.now }
    ensures keeps { Keeps graph.old graph.new }
    ensures means { IfOk result (λ l. Means graph.new l (λ x. capture design.now (End.Reg r) (shown_cycle graph.old x literals.now))) }
{
    let reg = design.regs.item(r);
    let own = literals.bits.at(r);
    let args = reg_literals(&reg.ins, &literals.nets, own);
    reg_capture_literal(alloc, reg, &args, graph)
}

/// The literals of the captures of all registers.
pub(crate) fn next_literals(
    alloc: Global,
    design: &Design,
    literals: &Literals,
    graph: &mut AndGraph,
) -> Result<Seq<u64>, AllocError>
    requires sound { IsSound design.now }
    requires literals { AreLiteralsFor graph.old design.now literals.now }
    ensures keeps { OnOk result (Keeps graph.old graph.new) }
    ensures captures { IfOk result (AreCaptureLiterals graph.new design.now literals.now) }
{
    let mut list = Seq::new(alloc);
    for r in 0..design.regs.len() {
        let literal = next_literal(alloc, design, literals, r, graph)?;
        list.push(literal)?;
    }
    Ok(list)
}

/// The literal of an end's capture, given those of all registers.
pub(crate) fn end_literal(design: &Design, literals: &Literals, nexts: &Seq<u64>, end: &End) -> u64
    requires sound { IsSound design.now }
    requires in_range { IsEndIn design.now end.now }
    requires nexts { length nexts.now ≡ length design.now.regs }
    requires nets { length literals.now.nets ≡ design.now.nets }
    ensures { (g : Graph) → AreLiteralsFor g design.now literals.now → AreCaptureLiterals g design.now literals.now nexts.now
        → Means g result (λ x. capture design.now end.now (shown_cycle g x literals.now)) }
{
    match end {
        End::Reg(r) => nexts.at(*r),
        End::Output(o) => literals.nets.at(design.outputs.at(*o)),
    }
}
