//! What registers capture in three values.
ghost use Rattle.std.specs.Prelude.{◌≡◌, ◌<◌, ◌≤◌, ◌+◌, ℕ, IfOk, length};
ghost use Rattle.net_model.specs.Args.{arg_at};
ghost use Rattle.net_model.specs.Fits.{IsEndIn};
ghost use Rattle.net_model.specs.Netlist.{IsSound, AllBelow};
ghost use Rattle.net_model.specs.Mentions.{IsRegOver};
ghost use Rattle.net_model.specs.Cycles.{reg_capture};
ghost use Rattle.net_model.specs.Splitting.{cell_value};
ghost use Rattle.firm_runs.specs.Cycles3.{reg_pins3, IsSettled3, AreCaptures3};
ghost use Rattle.firm_runs.specs.Cycles3 as cycles;

use crate::cycles::Cycle3;
use net_model::{Args, Design, End, Reg, Tern, Value, capture_func, pin_args};
use sdcv_base::Seq;
use std::alloc::{AllocError, Global};

/// The common value of a register's whole capture over all completions of its places, else unknown.
pub fn cell_capture3(alloc: Global, reg: &Reg, args: &Args<Tern>) -> Result<Tern, AllocError>
    requires { IsRegOver 7 reg.now }
    ensures { IfOk result (λ value. value ≡ cell_value (reg_capture reg.now) (arg_at args.now)) }
{
    let func = capture_func(alloc, reg)?;
    Ok(Tern::apply(&func, args))
}

/// What the pins of a register read, and at the place after them its own value.
fn reg_args3(ins: &Seq<usize>, nets: &Seq<Tern>, own: Tern) -> Args<Tern>
    requires few { length ins.now ≤ 6 }
    requires in_range { AllBelow (length nets.now) ins.now }
    ensures { (i : ℕ) → i < length ins.now + 1 → arg_at result i ≡ reg_pins3 ins.now nets.now own i }
{
    let mut args = pin_args(ins, nets);
    args.set(ins.len(), own);
    args
}

/// The capture of a register in a cycle.
fn capture_reg3(
    alloc: Global,
    design: &Design,
    cycle: &Cycle3,
    r: usize,
) -> Result<Tern, AllocError>
    requires sound { IsSound design.now }
    requires settled { IsSettled3 design.now cycle.now }
    requires in_range { r < length design.now.regs }
    ensures { IfOk result (λ value. value ≡ cycles.capture3 design.now (End.Reg r) cycle.now) }
{
    let reg = design.regs.item(r);
    let own = cycle.bits.at(r);
    let args = reg_args3(&reg.ins, &cycle.nets, own);
    let value = cell_capture3(alloc, reg, &args)?;
    Ok(value)
}

/// What an end captures in a settled cycle.
pub fn capture3(
    alloc: Global,
    design: &Design,
    cycle: &Cycle3,
    end: &End,
) -> Result<Tern, AllocError>
    requires sound { IsSound design.now }
    requires settled { IsSettled3 design.now cycle.now }
    requires in_range { IsEndIn design.now end.now }
    ensures { IfOk result (λ value. value ≡ cycles.capture3 design.now end.now cycle.now) }
{
    match end {
        End::Reg(r) => capture_reg3(alloc, design, cycle, *r),
        End::Output(o) => Ok(cycle.nets.at(design.outputs.at(*o))),
    }
}

/// The captures of all registers in a cycle.
pub fn next_bits3(alloc: Global, design: &Design, cycle: &Cycle3) -> Result<Seq<Tern>, AllocError>
    requires sound { IsSound design.now }
    requires settled { IsSettled3 design.now cycle.now }
    ensures { IfOk result (AreCaptures3 design.now cycle.now) }
{
    let mut bits = Seq::new(alloc);
    for r in 0..design.regs.len() {
        bits.push(capture_reg3(alloc, design, cycle, r)?)?;
    }
    Ok(bits)
}
