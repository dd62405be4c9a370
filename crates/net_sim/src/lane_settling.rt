//! The settled values of the nets of sixty-four cycles at once.
ghost use Rattle.std.specs.Prelude.{◌≡◌, ◌<◌, ℕ, length, All, Contains, slice_get, slice_index, Some};
ghost use Rattle.net_model.specs.Netlist.{before_reg, IsSound};
ghost use Rattle.net_model.specs.Cycles.{bit_at, shown, IsSettled};
ghost use Rattle.net_model.specs.LaneBits.{lane, lane_cycle};
ghost use Rattle.net_model.specs.declared.netlist.RegOut.{RegOut as RegOutRecord};
ghost use Rattle.net_model.specs.declared.netlist.Reg.{Reg as RegRecord};
ghost use Rattle.net_sim.specs.LaneRows.{IsOnlyRow, AreInputsShown, IsBitShown, AreBitsShown, AreKept};

use net_model::{Design, Lanes, RegOut, settle_gates};
use sdcv_base::Seq;

/// Writes each input's lanes to its net.
fn put_inputs(design: &Design, ins: &Seq<Lanes>, nets: &mut Seq<Lanes>)
    requires sound { IsSound design.now }
    requires ins { length ins.now ≡ length design.now.inputs }
    requires len { length nets.old ≡ design.now.nets }
    ensures len { length nets.new ≡ design.now.nets }
    ensures shown { (i : ℕ) → i < 64 → AreInputsShown design.now i ins.now nets.new }
{
    for input in 0..design.inputs.len() {
        let net = design.inputs.at(input);
        let lanes = ins.at(input);
        nets.put(net, lanes);
    }
}

/// What an output net shows of its register's lanes.
fn shown_on(out: RegOut, bits: Lanes) -> Lanes
    ensures { (i : ℕ) → i < 64 → lane result i ≡ shown out (lane bits i) }
{
    if out.inverted {
        bits.complement()
    } else {
        bits
    }
}

/// Writes a register's lanes, or their complements, to the register's output nets.
fn put_reg(design: &Design, r: usize, bits: Lanes, nets: &mut Seq<Lanes>)
    requires sound { IsSound design.now }
    requires in_range { r < length design.now.regs }
    requires len { length nets.old ≡ design.now.nets }
    ensures len { length nets.new ≡ design.now.nets }
    ensures kept { (i : ℕ) → i < 64 → AreKept i (before_reg design.now r) nets.old nets.new }
    ensures shown { (i : ℕ) → i < 64 → (reg : RegRecord) → slice_get design.now.regs r ≡ Some reg → IsBitShown i reg (lane bits i) nets.new }
{
    let reg = design.regs.item(r);
    let outs = &reg.outs;
    for o in 0..outs.len() {
        let out = outs.at(o);
        let shown = shown_on(out, bits);
        nets.put(out.net, shown);
    }
}

/// Writes the lanes of all registers to their output nets.
fn put_regs(design: &Design, bits: &Seq<Lanes>, nets: &mut Seq<Lanes>)
    requires sound { IsSound design.now }
    requires bits { length bits.now ≡ length design.now.regs }
    requires len { length nets.old ≡ design.now.nets }
    ensures len { length nets.new ≡ design.now.nets }
    ensures kept { (i : ℕ) → i < 64 → AreKept i design.now.inputs nets.old nets.new }
    ensures shown { (i : ℕ) → i < 64 → AreBitsShown design.now i bits.now nets.new }
{
    for r in 0..design.regs.len() {
        put_reg(design, r, bits.at(r), nets);
    }
}

/// Makes `nets` the settled values of sixty-four cycles: lane i is that of the cycle with lane i of the register and input
/// bits, as `settle` has it.
///
/// It takes no memory. The lanes stand for cycles that have nothing to do with one another.
pub fn settle64(design: &Design, bits: &Seq<Lanes>, ins: &Seq<Lanes>, nets: &mut Seq<Lanes>)
    requires sound { IsSound design.now }
    requires bits { length bits.now ≡ length design.now.regs }
    requires ins { length ins.now ≡ length design.now.inputs }
    requires nets { length nets.old ≡ design.now.nets }
    ensures len { length nets.new ≡ design.now.nets }
    ensures settled { (i : ℕ) → i < 64 → IsSettled design.now (lane_cycle i bits.now ins.now nets.new) }
    ensures only { (i : ℕ) → i < 64 → IsOnlyRow design.now i bits.now ins.now nets.new }
{
    put_inputs(design, ins, nets);
    put_regs(design, bits, nets);
    settle_gates(design, nets);
}
