//! The values that pins read in the layers of a cycle, and the gates of one layer.
ghost use Rattle.std.specs.Prelude.{◌≡◌, ◌≢◌, ◌<◌, ◌≤◌, ◌+◌, ℕ, true, false, length, Contains};
ghost use Rattle.net_model.specs.Args.{arg_at};
ghost use Rattle.net_model.specs.Form.{IsOver};
ghost use Rattle.net_model.specs.Netlist.{IsSound, AllBelow, source_nets};
ghost use Rattle.net_model.specs.Pins.{is_in};
ghost use Rattle.net_model.specs.Layers.{row_at, net_at, held_set, pin_reads, layer_pins, late_reg_pins, AreLayerGates};
ghost use Rattle.net_model.specs.RowChanges.{ChangesRow};
ghost use Rattle.net_model.specs.declared.claims.PinRef.TheVariants.{Net};

use crate::arguments::Args;
use crate::claims::PinRef;
use crate::netlist::{Design, Gate, Reg};
use crate::pins::{PinSet, is_held};
use crate::values::Value;
use sdcv_base::Seq;

/// What an input pin of a net reads in a layer: where it is in the set of the layer, what it reads in the one before.
pub fn layer_pin<V: Value>(
    sets: &Seq<PinSet>,
    rows: &Seq<Seq<V>>,
    layer: usize,
    pin: PinRef,
    net: usize,
) -> V
    requires sets { layer ≤ length sets.now }
    requires rows { layer < length rows.now }
    requires nets { (m : ℕ) → m ≤ layer → net < length (row_at rows.now m) }
    ensures { result ≡ pin_reads (V.bit_value false) sets.now rows.now layer pin net }
{
    if is_held(sets, layer, pin) {
        layer_pin(sets, rows, layer - 1, pin, net)
    } else {
        rows.item(layer).at(net)
    }
}

/// What the pins of a gate read in a layer.
fn layer_args<V: Value>(
    sets: &Seq<PinSet>,
    rows: &Seq<Seq<V>>,
    layer: usize,
    gate: usize,
    ins: &Seq<usize>,
) -> Args<V>
    requires few { length ins.now ≤ 6 }
    requires sets { layer ≤ length sets.now }
    requires rows { layer < length rows.now }
    requires nets { (m : ℕ) → m ≤ layer → AllBelow (length (row_at rows.now m)) ins.now }
    ensures { (i : ℕ) → i < length ins.now → arg_at result i ≡ layer_pins (V.bit_value false) sets.now rows.now layer gate ins.now i }
{
    let mut args = Args::of(V::of_bit(false));
    for i in 0..ins.len() {
        let net = ins.at(i);
        let value = layer_pin(sets, rows, layer, PinRef::GateIn(gate, i), net);
        args.set(i, value);
    }
    args
}

/// The value of a gate's function in a layer.
fn layer_value<V: Value>(
    sets: &Seq<PinSet>,
    rows: &Seq<Seq<V>>,
    layer: usize,
    place: usize,
    gate: &Gate,
) -> V
    requires few { length gate.now.ins ≤ 6 }
    requires sets { layer ≤ length sets.now }
    requires rows { layer < length rows.now }
    requires nets { (m : ℕ) → m ≤ layer → AllBelow (length (row_at rows.now m)) gate.now.ins }
    requires over { IsOver (length gate.now.ins) gate.now.func }
    ensures { result ≡ V.applied gate.now.func (layer_pins (V.bit_value false) sets.now rows.now layer place gate.now.ins) }
{
    let args = layer_args(sets, rows, layer, place, &gate.ins);
    V::apply(&gate.func, &args)
}

/// Gives each gate output of a layer that is not in its set the value of its function, in the order of the gates.
pub fn settle_layer<V: Value>(
    design: &Design,
    sets: &Seq<PinSet>,
    layer: usize,
    rows: &mut Seq<Seq<V>>,
)
    requires sound { IsSound design.now }
    requires sets { layer ≤ length sets.now }
    requires rows { layer < length rows.old }
    requires lens { (m : ℕ) → m ≤ layer → length (row_at rows.old m) ≡ design.now.nets }
    ensures kept { ChangesRow layer rows.old rows.new }
    ensures sources { (n : ℕ) → Contains (source_nets design.now) n → net_at (V.bit_value false) rows.new layer n ≡ net_at
        (V.bit_value false) rows.old layer n }
    ensures held { (n : ℕ) → is_in (Net n) (held_set sets.now layer) ≡ true → net_at (V.bit_value false) rows.new layer n ≡ net_at
        (V.bit_value false) rows.old layer n }
    ensures gates { AreLayerGates V.applied (V.bit_value false) design.now sets.now rows.new layer }
{
    for k in 0..design.gates.len() {
        let gate = design.gates.item(k);
        if !is_held(sets, layer, PinRef::Net(gate.out)) {
            let value = layer_value(sets, rows, layer, k, gate);
            rows.put_in(layer, gate.out, value);
        }
    }
}

/// What the pins of an end register read in the last layer, and at the place after them its own bit.
pub fn late_reg_args<V: Value>(
    sets: &Seq<PinSet>,
    rows: &Seq<Seq<V>>,
    r: usize,
    reg: &Reg,
    own: V,
) -> Args<V>
    requires few { length reg.now.ins ≤ 6 }
    requires rows { length sets.now < length rows.now }
    requires nets { (m : ℕ) → m ≤ length sets.now → AllBelow (length (row_at rows.now m)) reg.now.ins }
    ensures { (i : ℕ) → i < length reg.now.ins + 1 → arg_at result i ≡ late_reg_pins (V.bit_value false) sets.now rows.now r reg.now own i }
{
    let mut args = Args::of(own);
    let ins = &reg.ins;
    for i in 0..ins.len() {
        let net = ins.at(i);
        let value = layer_pin(sets, rows, sets.len(), PinRef::RegIn(r, i), net);
        args.set(i, value);
    }
    args
}
