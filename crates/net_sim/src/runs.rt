//! Linked cycles, made of their free bits.
ghost use Rattle.std.specs.Prelude.{◌≡◌, IfOk, length};
ghost use Rattle.net_model.specs.Netlist.{IsSound};
ghost use Rattle.net_model.specs.Cycles.{IsSettled, IsLinked};
ghost use Rattle.net_model.specs.Stimuli.{StandsFor};
ghost use Rattle.net_sim.specs.Runs.{AreCaptures, IsLinkable};

use crate::captures::capture;
use crate::settling::settle;
use net_model::{Cycle, Design, End, Stimulus};
use sdcv_base::Seq;
use std::alloc::{AllocError, Global};

/// The settled cycle of these register and input bits.
fn settled(
    alloc: Global,
    design: &Design,
    bits: Seq<bool>,
    ins: &Seq<bool>,
) -> Result<Cycle, AllocError>
    requires sound { IsSound design.now }
    requires bits { length bits ≡ length design.now.regs }
    requires ins { length ins.now ≡ length design.now.inputs }
    ensures bits { IfOk result (λ c. c.bits ≡ bits) }
    ensures ins { IfOk result (λ c. c.ins ≡ ins.now) }
    ensures settled { IfOk result (IsSettled design.now) }
{
    let ins = ins.copy(alloc)?;
    let nets = Seq::filled(alloc, false, design.nets)?;
    let mut cycle = Cycle { bits, ins, nets };
    settle(design, &mut cycle);
    Ok(cycle)
}

/// The captures of all registers in a cycle.
fn next_bits(alloc: Global, design: &Design, cycle: &Cycle) -> Result<Seq<bool>, AllocError>
    requires sound { IsSound design.now }
    requires settled { IsSettled design.now cycle.now }
    ensures { IfOk result (AreCaptures design.now cycle.now) }
{
    let mut bits = Seq::new(alloc);
    for r in 0..design.regs.len() {
        bits.push(capture(design, cycle, &End::Reg(r)))?;
    }
    Ok(bits)
}

/// The linked cycles that a stimulus stands for: its register bits in the first cycle, its input bits in each, and after
/// each cycle the captures of the cycle before. Resets are as the stimulus has them.
pub fn linked_run(
    alloc: Global,
    design: &Design,
    stimulus: &Stimulus,
) -> Result<Seq<Cycle>, AllocError>
    requires sound { IsSound design.now }
    requires linkable { IsLinkable design.now stimulus.now }
    ensures linked { IfOk result (IsLinked design.now) }
    ensures stands { IfOk result (StandsFor stimulus.now) }
{
    let mut run = Seq::new(alloc);
    let mut bits = stimulus.state.copy(alloc)?;
    for t in 0..stimulus.inputs.len() {
        let cycle = settled(alloc, design, bits, stimulus.inputs.item(t))?;
        bits = next_bits(alloc, design, &cycle)?;
        run.push(cycle)?;
    }
    Ok(run)
}
