//! The literals of a cycle.
ghost use Rattle.std.specs.Prelude.{◌≡◌, ◌≤◌, ◌<◌, ◌+◌, ◌^◌, ℕ, Bool, List, OnOk, IfOk, length};
ghost use Rattle.net_model.specs.Netlist.{IsSound};
ghost use Rattle.net_model.specs.Fits.{IsStartIn};
ghost use Rattle.net_model.specs.Cycles.{bit_at};
ghost use Rattle.net_model.specs.Judge.{start_bit};
ghost use Rattle.and_graphs.specs.Graphs.{Means, Keeps};
ghost use Rattle.and_graphs.specs.declared.graphs.AndGraph.{AndGraph as Graph};
ghost use Rattle.claim_monitor.specs.Fronts.{AreSmall, front_count, AreSizesOf};
ghost use Rattle.claim_monitor.specs.Shown.{AreIn, AreCycleLiterals, AreLiteralsFor, shown_row, shown_cycle};

use crate::inputs::input_literals;
use crate::nets::net_literals;
use crate::sizes::Sizes;
use and_graphs::AndGraph;
use net_model::{Design, Start};
use sdcv_base::Seq;
use std::alloc::{AllocError, Global};

/// A literal for each register, for each input and for each net: a cycle whose bits they show.
#[derive(Drop)]
pub struct Literals {
    pub bits: Seq<u64>,
    pub ins: Seq<u64>,
    pub nets: Seq<u64>,
}

/// The variables of consecutive places in front.
pub(crate) fn variables(
    alloc: Global,
    graph: &AndGraph,
    first: u64,
    count: u64,
) -> Result<Seq<u64>, AllocError>
    requires in_range { first + count ≤ graph.now.front }
    requires fits { first + count < 2 ^ 64 }
    ensures len { IfOk result (λ ls. length ls ≡ count) }
    ensures in_ { IfOk result (AreIn graph.now) }
    ensures shown { IfOk result (λ ls. (x : List Bool) (k : ℕ) → length x ≡ graph.now.front → k < count
        → bit_at (shown_row graph.now x ls) k ≡ bit_at x (first + k)) }
{
    let mut list = Seq::new(alloc);
    for k in 0..count {
        let literal = graph.variable(first + k)?;
        list.push(literal)?;
    }
    Ok(list)
}

/// The literal of a start of the design.
pub(crate) fn start_literal(design: &Design, literals: &Literals, start: &Start) -> u64
    requires in_range { IsStartIn design.now start.now }
    requires bits { length literals.now.bits ≡ length design.now.regs }
    requires ins { length literals.now.ins ≡ length design.now.inputs }
    ensures { (g : Graph) → AreLiteralsFor g design.now literals.now → Means g result (λ x. start_bit start.now (shown_cycle g x literals.now)) }
{
    match start {
        Start::Reg(r) => literals.bits.at(*r),
        Start::Input(i) => literals.ins.at(*i),
    }
}

/// The literals of the cycle whose register and input bits the variables in front show.
pub(crate) fn literals_of(
    alloc: Global,
    design: &Design,
    sizes: &Sizes,
    graph: &mut AndGraph,
) -> Result<Literals, AllocError>
    requires sound { IsSound design.now }
    requires small { AreSmall sizes.now }
    requires sizes { AreSizesOf design.now sizes.now }
    requires front { graph.old.front ≡ front_count sizes.now }
    ensures keeps { OnOk result (Keeps graph.old graph.new) }
    ensures literals { IfOk result (AreCycleLiterals graph.new design.now sizes.now) }
{
    let bits = variables(alloc, graph, sizes.inputs, sizes.regs)?;
    let ins = input_literals(alloc, design, sizes, graph)?;
    let nets = net_literals(alloc, design, &bits, &ins, graph)?;
    Ok(Literals { bits, ins, nets })
}
