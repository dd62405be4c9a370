//! The gates of one layer in three values.
ghost use Rattle.std.specs.Prelude.{◌≡◌, ◌<◌, ◌≤◌, ℕ, true, length, Contains};
ghost use Rattle.net_model.specs.Args.{arg_at};
ghost use Rattle.net_model.specs.Form.{IsOver};
ghost use Rattle.net_model.specs.Netlist.{IsSound, AllBelow, source_nets};
ghost use Rattle.net_model.specs.Pins.{is_in};
ghost use Rattle.net_model.specs.Layers.{row_at, net_at, held_set, layer_pins, AreLayerGates};
ghost use Rattle.net_model.specs.RowChanges.{ChangesRow};
ghost use Rattle.net_model.specs.Splitting.{tern_value};
ghost use Rattle.net_model.specs.declared.claims.PinRef.TheVariants.{Net};
ghost use Rattle.net_model.specs.declared.terns.Tern.TheVariants.{Zero};

use net_model::{Args, Design, Gate, PinRef, PinSet, Tern, Value, is_held, layer_pin};
use sdcv_base::Seq;

/// What the pins of a gate read in a layer.
fn layer_args(
    sets: &Seq<PinSet>,
    rows: &Seq<Seq<Tern>>,
    layer: usize,
    gate: usize,
    ins: &Seq<usize>,
) -> Args<Tern>
    requires few { length ins.now ≤ 6 }
    requires sets { layer ≤ length sets.now }
    requires rows { layer < length rows.now }
    requires nets { (m : ℕ) → m ≤ layer → AllBelow (length (row_at rows.now m)) ins.now }
    ensures { (i : ℕ) → i < length ins.now → arg_at result i ≡ layer_pins Zero sets.now rows.now layer gate ins.now i }
{
    let mut args = Args::of(Tern::Zero);
    for i in 0..ins.len() {
        let net = ins.at(i);
        let value = layer_pin(sets, rows, layer, PinRef::GateIn(gate, i), net);
        args.set(i, value);
    }
    args
}

/// The value of a gate's function in a layer.
fn layer_value(
    sets: &Seq<PinSet>,
    rows: &Seq<Seq<Tern>>,
    layer: usize,
    place: usize,
    gate: &Gate,
) -> Tern
    requires few { length gate.now.ins ≤ 6 }
    requires sets { layer ≤ length sets.now }
    requires rows { layer < length rows.now }
    requires nets { (m : ℕ) → m ≤ layer → AllBelow (length (row_at rows.now m)) gate.now.ins }
    requires over { IsOver (length gate.now.ins) gate.now.func }
    ensures { result ≡ tern_value gate.now.func (layer_pins Zero sets.now rows.now layer place gate.now.ins) }
{
    let args = layer_args(sets, rows, layer, place, &gate.ins);
    Tern::apply(&gate.func, &args)
}

/// Gives each gate output of a layer that is not in its set the value of its function, in the order of the gates.
pub fn settle_layer(design: &Design, sets: &Seq<PinSet>, layer: usize, rows: &mut Seq<Seq<Tern>>)
    requires sound { IsSound design.now }
    requires sets { layer ≤ length sets.now }
    requires rows { layer < length rows.old }
    requires lens { (m : ℕ) → m ≤ layer → length (row_at rows.old m) ≡ design.now.nets }
    ensures kept { ChangesRow layer rows.old rows.new }
    ensures sources { (n : ℕ) → Contains (source_nets design.now) n → net_at Zero rows.new layer n ≡ net_at Zero rows.old layer n }
    ensures held { (n : ℕ) → is_in (Net n) (held_set sets.now layer) ≡ true → net_at Zero rows.new layer n ≡ net_at Zero rows.old layer n }
    ensures gates { AreLayerGates tern_value Zero design.now sets.now rows.new layer }
{
    for k in 0..design.gates.len() {
        let gate = design.gates.item(k);
        if !is_held(sets, layer, PinRef::Net(gate.out)) {
            let value = layer_value(sets, rows, layer, k, gate);
            rows.put_in(layer, gate.out, value);
        }
    }
}
