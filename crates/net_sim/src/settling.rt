//! The settled values of a cycle's nets.
ghost use Rattle.std.specs.Prelude.{◌≡◌, ◌<◌, ℕ, length, All, Contains, slice_get, slice_index, Some};
ghost use Rattle.net_model.specs.Netlist.{before_reg, IsSound};
ghost use Rattle.net_model.specs.Cycles.{bit_at, shown, HasShape, IsSettled};
ghost use Rattle.net_model.specs.declared.netlist.RegOut.{RegOut};
ghost use Rattle.net_model.specs.declared.netlist.Reg.{Reg as RegRecord};
ghost use Rattle.net_model.specs.declared.cycles.Cycle.{Cycle as CycleRecord};

use net_model::{Cycle, Design, settle_gates};
use sdcv_base::Seq;

/// Writes each input's bit to its net.
fn put_inputs(design: &Design, ins: &Seq<bool>, nets: &mut Seq<bool>)
    requires sound { IsSound design.now }
    requires ins { length ins.now ≡ length design.now.inputs }
    requires len { length nets.old ≡ design.now.nets }
    ensures len { length nets.new ≡ design.now.nets }
    ensures shown { (i : ℕ) → i < length design.now.inputs → bit_at nets.new (slice_index design.now.inputs i) ≡ bit_at ins.now i }
{
    for i in 0..design.inputs.len() {
        let net = design.inputs.at(i);
        let bit = ins.at(i);
        nets.put(net, bit);
    }
}

/// Writes a register's bit, or its complement, to the register's output nets.
fn put_reg(design: &Design, r: usize, bit: bool, nets: &mut Seq<bool>)
    requires sound { IsSound design.now }
    requires in_range { r < length design.now.regs }
    requires len { length nets.old ≡ design.now.nets }
    ensures len { length nets.new ≡ design.now.nets }
    ensures kept { (n : ℕ) → Contains (before_reg design.now r) n → bit_at nets.new n ≡ bit_at nets.old n }
    ensures shown { (reg : RegRecord) → slice_get design.now.regs r ≡ Some reg → All (λ (o : RegOut). bit_at nets.new o.net ≡ shown o bit) reg.outs }
{
    let reg = design.regs.item(r);
    let outs = &reg.outs;
    for o in 0..outs.len() {
        let out = outs.at(o);
        let shown = if out.inverted { !bit } else { bit };
        nets.put(out.net, shown);
    }
}

/// Writes the bits of all registers to their output nets.
fn put_regs(design: &Design, bits: &Seq<bool>, nets: &mut Seq<bool>)
    requires sound { IsSound design.now }
    requires bits { length bits.now ≡ length design.now.regs }
    requires len { length nets.old ≡ design.now.nets }
    ensures len { length nets.new ≡ design.now.nets }
    ensures kept { (n : ℕ) → Contains design.now.inputs n → bit_at nets.new n ≡ bit_at nets.old n }
    ensures shown { (r : ℕ) (reg : RegRecord) → slice_get design.now.regs r ≡ Some reg
        → All (λ (o : RegOut). bit_at nets.new o.net ≡ shown o (bit_at bits.now r)) reg.outs }
{
    for r in 0..design.regs.len() {
        put_reg(design, r, bits.at(r), nets);
    }
}

/// Makes `nets` the settled values of the cycle's register and input bits, which stay.
///
/// No other row of net values is settled with these bits.
pub fn settle(design: &Design, cycle: &mut Cycle)
    requires sound { IsSound design.now }
    requires shape { HasShape design.now cycle.old }
    ensures bits { cycle.new.bits ≡ cycle.old.bits }
    ensures ins { cycle.new.ins ≡ cycle.old.ins }
    ensures settled { IsSettled design.now cycle.new }
    ensures only { (c : CycleRecord) → IsSettled design.now c → c.bits ≡ cycle.new.bits → c.ins ≡ cycle.new.ins → c ≡ cycle.new }
{
    put_inputs(design, &cycle.ins, &mut cycle.nets);
    put_regs(design, &cycle.bits, &mut cycle.nets);
    settle_gates(design, &mut cycle.nets);
}
