//! The captures of registers in sixty-four cycles at once.
ghost use Rattle.std.specs.Prelude.{◌≡◌, ◌<◌, ◌≤◌, ◌+◌, ◌&&◌, ◌||◌, ℕ, List, IfOk, length};
ghost use Rattle.net_model.specs.Args.{arg_at};
ghost use Rattle.net_model.specs.Form.{IsOver};
ghost use Rattle.net_model.specs.Netlist.{IsSound, IsOptionOver, AllBelow};
ghost use Rattle.net_model.specs.Cycles.{reg_pins, reg_capture, value_if_any};
ghost use Rattle.net_model.specs.Cycles as cycles;
ghost use Rattle.net_model.specs.LaneBits.{lane, lane_row, lane_cycle, IsInEachLane};
ghost use Rattle.net_model.specs.declared.lane_words.Lanes.{Lanes as LanesRecord};
ghost use Rattle.net_model.specs.declared.claims.End.TheVariants.{Reg as RegEnd};
ghost use Rattle.net_sim.specs.Runs.{AreCaptures};
ghost use Rattle.drawn_runs.specs.LaneSteps.{controlled};

use net_model::{Args, Design, Func, Lanes, Reg, Value, pin_args};
use sdcv_base::Seq;
use std::alloc::{AllocError, Global};

/// The bits that are 1 in both words.
pub(crate) fn both(a: Lanes, b: Lanes) -> Lanes
    ensures { (i : ℕ) → i < 64 → lane result i ≡ (lane a i && lane b i) }
{
    Lanes(a.0 & b.0)
}

/// The bits that are 1 in one of the words.
pub(crate) fn either(a: Lanes, b: Lanes) -> Lanes
    ensures { (i : ℕ) → i < 64 → lane result i ≡ (lane a i || lane b i) }
{
    Lanes(a.0 | b.0)
}

/// In each lane what a register captures by its clear, its preset, its value where both are 1, and its next state.
fn controlled(clear: Lanes, preset: Lanes, stated: Lanes, next: Lanes) -> Lanes
    ensures { (i : ℕ) → i < 64 → lane result i ≡ controlled (lane clear i) (lane preset i) (lane stated i) (lane next i) }
{
    let unclear = clear.complement();
    let set = both(preset, either(stated, unclear));
    let follows = both(next, unclear);
    either(set, follows)
}

/// In each lane the value of a clear or preset function; one that isn't there is 0.
fn lanes_if_any(func: &Option<Func>, args: &Args<Lanes>) -> Lanes
    requires { IsOptionOver 7 func.now }
    ensures { IsInEachLane (value_if_any func.now) (arg_at args.now) result }
{
    match func {
        None => Lanes::of_bit(false),
        Some(func) => Lanes::apply(func, args),
    }
}

/// In each lane the capture of a register whose places have these bits.
fn lanes_capture(reg: &Reg, args: &Args<Lanes>) -> Lanes
    requires next { IsOver 7 reg.now.next }
    requires clear { IsOptionOver 7 reg.now.clear }
    requires preset { IsOptionOver 7 reg.now.preset }
    ensures { IsInEachLane (reg_capture reg.now) (arg_at args.now) result }
{
    let clear = lanes_if_any(&reg.clear, args);
    let preset = lanes_if_any(&reg.preset, args);
    let next = Lanes::apply(&reg.next, args);
    controlled(clear, preset, Lanes::of_bit(reg.both), next)
}

/// What the pins of a register read, and at the place after them its own bits.
fn reg_args64(ins: &Seq<usize>, nets: &Seq<Lanes>, own: Lanes) -> Args<Lanes>
    requires few { length ins.now ≤ 6 }
    requires in_range { AllBelow (length nets.now) ins.now }
    ensures { (i : ℕ) → i < 64 → (place : ℕ) → place < length ins.now + 1 → lane (arg_at result place) i
        ≡ reg_pins ins.now (lane_row i nets.now) (lane own i) place }
{
    let mut args = pin_args(ins, nets);
    args.set(ins.len(), own);
    args
}

/// In each lane the capture of a register of the design.
fn capture64(design: &Design, bits: &Seq<Lanes>, nets: &Seq<Lanes>, r: usize) -> Lanes
    requires sound { IsSound design.now }
    requires bits { length bits.now ≡ length design.now.regs }
    requires nets { length nets.now ≡ design.now.nets }
    requires in_range { r < length design.now.regs }
    ensures { (i : ℕ) → i < 64 → (ins : List LanesRecord) → lane result i ≡ cycles.capture design.now (RegEnd r) (lane_cycle i bits.now ins nets.now) }
{
    let reg = design.regs.item(r);
    let own = bits.at(r);
    let args = reg_args64(&reg.ins, nets, own);
    lanes_capture(reg, &args)
}

/// The register bits of the next cycles: in each lane the captures of the cycle with that lane of the register bits and nets.
pub fn step64(
    alloc: Global,
    design: &Design,
    bits: &Seq<Lanes>,
    nets: &Seq<Lanes>,
) -> Result<Seq<Lanes>, AllocError>
    requires sound { IsSound design.now }
    requires bits { length bits.now ≡ length design.now.regs }
    requires nets { length nets.now ≡ design.now.nets }
    ensures len { IfOk result (λ next. length next ≡ length design.now.regs) }
    ensures captures { IfOk result (λ next. (i : ℕ) → i < 64 → (ins : List LanesRecord) → AreCaptures design.now (lane_cycle i bits.now ins nets.now)
        (lane_row i next)) }
{
    let mut next = Seq::new(alloc);
    for r in 0..design.regs.len() {
        next.push(capture64(design, bits, nets, r))?;
    }
    Ok(next)
}
