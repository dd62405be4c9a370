//! Rows with a value for each net: settling them in the order of the gates.
ghost use Rattle.std.specs.Prelude.{◌≡◌, ◌<◌, ◌≤◌, ℕ, false, length, Contains, slice_index_or};
ghost use Rattle.net_model.specs.Form.{IsOver};
ghost use Rattle.net_model.specs.Args.{arg_at};
ghost use Rattle.net_model.specs.Netlist.{AllBelow, IsSound, source_nets};
ghost use Rattle.net_model.specs.Rows.{pins_of, AreGatesSettled};

use crate::arguments::Args;
use crate::netlist::{Design, Gate};
use crate::values::Value;
use sdcv_base::Seq;

/// What pins on these nets read, in order; the places after them have the value of 0.
pub fn pin_args<V: Value>(ins: &Seq<usize>, nets: &Seq<V>) -> Args<V>
    requires few { length ins.now ≤ 6 }
    requires in_range { AllBelow (length nets.now) ins.now }
    ensures { (i : ℕ) → i < length ins.now → arg_at result i ≡ pins_of (V.bit_value false) ins.now nets.now i }
{
    let mut args = Args::of(V::of_bit(false));
    for i in 0..ins.len() {
        args.set(i, nets.at(ins.at(i)));
    }
    args
}

/// The value of a gate's function.
fn gate_value<V: Value>(gate: &Gate, nets: &Seq<V>) -> V
    requires few { length gate.now.ins ≤ 6 }
    requires in_range { AllBelow (length nets.now) gate.now.ins }
    requires over { IsOver (length gate.now.ins) gate.now.func }
    ensures { result ≡ V.applied gate.now.func (pins_of (V.bit_value false) gate.now.ins nets.now) }
{
    let args = pin_args(&gate.ins, nets);
    V::apply(&gate.func, &args)
}

/// Gives each gate output the value of its function, in the order of the gates. Other nets stay.
pub fn settle_gates<V: Value>(design: &Design, nets: &mut Seq<V>)
    requires sound { IsSound design.now }
    requires len { length nets.old ≡ design.now.nets }
    ensures len { length nets.new ≡ design.now.nets }
    ensures sources { (n : ℕ) → Contains (source_nets design.now) n → slice_index_or nets.new n (V.bit_value false) ≡ slice_index_or nets.old n
        (V.bit_value false) }
    ensures gates { AreGatesSettled V.applied (V.bit_value false) design.now.gates nets.new }
{
    for k in 0..design.gates.len() {
        let gate = design.gates.item(k);
        let value = gate_value(gate, nets);
        nets.put(gate.out, value);
    }
}
