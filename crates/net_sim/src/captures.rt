//! What ends capture, and the register bits of the next cycle.
ghost use Rattle.std.specs.Prelude.{◌≡◌, ◌<◌, ◌≤◌, ◌+◌, ℕ, length};
ghost use Rattle.net_model.specs.Args.{arg_at};
ghost use Rattle.net_model.specs.Fits.{IsEndIn};
ghost use Rattle.net_model.specs.Netlist.{IsSound, AllBelow};
ghost use Rattle.net_model.specs.Cycles.{reg_pins, IsSettled, IsNext, HasShape};
ghost use Rattle.net_model.specs.Cycles as cycles;

use net_model::{Args, Cycle, Design, End, capture_of, pin_args};
use sdcv_base::Seq;

/// What the pins of a register read, and at the place after them its own bit.
fn reg_args(ins: &Seq<usize>, nets: &Seq<bool>, own: bool) -> Args<bool>
    requires few { length ins.now ≤ 6 }
    requires in_range { AllBelow (length nets.now) ins.now }
    ensures { (i : ℕ) → i < length ins.now + 1 → arg_at result i ≡ reg_pins ins.now nets.now own i }
{
    let mut args = pin_args(ins, nets);
    args.set(ins.len(), own);
    args
}

/// The capture of a register in a cycle.
fn capture_reg(design: &Design, cycle: &Cycle, r: usize) -> bool
    requires sound { IsSound design.now }
    requires shape { HasShape design.now cycle.now }
    requires in_range { r < length design.now.regs }
    ensures { result ≡ cycles.capture design.now (End.Reg r) cycle.now }
{
    let reg = design.regs.item(r);
    let own = cycle.bits.at(r);
    let args = reg_args(&reg.ins, &cycle.nets, own);
    capture_of(reg, &args)
}

/// What an end captures in a settled cycle: a register by its functions, an output port the bit of its net.
pub fn capture(design: &Design, cycle: &Cycle, end: &End) -> bool
    requires sound { IsSound design.now }
    requires settled { IsSettled design.now cycle.now }
    requires in_range { IsEndIn design.now end.now }
    ensures { result ≡ cycles.capture design.now end.now cycle.now }
{
    match end {
        End::Reg(r) => capture_reg(design, cycle, *r),
        End::Output(o) => cycle.nets.at(design.outputs.at(*o)),
    }
}

/// Makes the register bits of `to` the captures of `from`, a settled cycle. Its inputs and nets stay, so it is mostly not
/// settled.
pub fn step(design: &Design, from: &Cycle, to: &mut Cycle)
    requires sound { IsSound design.now }
    requires settled { IsSettled design.now from.now }
    requires shape { HasShape design.now to.old }
    ensures next { IsNext design.now from.now to.new }
    ensures shape { HasShape design.now to.new }
    ensures ins { to.new.ins ≡ to.old.ins }
    ensures nets { to.new.nets ≡ to.old.nets }
{
    for r in 0..design.regs.len() {
        let bit = capture_reg(design, from, r);
        to.bits.put(r, bit);
    }
}
