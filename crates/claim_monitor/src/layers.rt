//! The literals that pins read in the layers of a cycle, and the gates of one layer.
ghost use Rattle.std.specs.Prelude.{◌≡◌, ◌≤◌, ◌<◌, ℕ, false, Bool, List, All, OnOk, IfOk, length};
ghost use Rattle.net_model.specs.Form.{value, IsOver};
ghost use Rattle.net_model.specs.Netlist.{IsSound, AllBelow};
ghost use Rattle.net_model.specs.Layers.{row_at, pin_reads, layer_pins};
ghost use Rattle.net_model.specs.RowChanges.{ChangesRow};
ghost use Rattle.and_graphs.specs.Graphs.{Means, Keeps};
ghost use Rattle.claim_monitor.specs.Shown.{AreIn};
ghost use Rattle.claim_monitor.specs.Layered.{AreRowsFor, AreLayerLiterals, AreLateLiterals, IsLayerSettled, shown_rows};

use and_graphs::AndGraph;
use net_model::{Args, Design, Gate, PinRef, PinSet, is_held};
use sdcv_base::Seq;
use std::alloc::AllocError;

/// What an input pin of a net reads in a layer: where it is in the set of the layer, what it reads in the one before.
pub(crate) fn layer_pin(
    sets: &Seq<PinSet>,
    rows: &Seq<Seq<u64>>,
    layer: usize,
    pin: PinRef,
    net: usize,
) -> u64
    requires sets { layer ≤ length sets.now }
    requires rows { layer < length rows.now }
    requires nets { (m : ℕ) → m ≤ layer → net < length (row_at rows.now m) }
    ensures { result ≡ pin_reads 0 sets.now rows.now layer pin net }
{
    if is_held(sets, layer, pin) {
        layer_pin(sets, rows, layer - 1, pin, net)
    } else {
        rows.item(layer).at(net)
    }
}

/// What the pins of a gate read in a layer.
fn layer_args(
    sets: &Seq<PinSet>,
    rows: &Seq<Seq<u64>>,
    layer: usize,
    gate: usize,
    ins: &Seq<usize>,
) -> Args<u64>
    requires few { length ins.now ≤ 6 }
    requires sets { layer ≤ length sets.now }
    requires rows { layer < length rows.now }
    requires nets { (m : ℕ) → m ≤ layer → AllBelow (length (row_at rows.now m)) ins.now }
    ensures { AreLayerLiterals sets.now rows.now layer gate ins.now result }
{
    let mut args = Args::of(0);
    for i in 0..ins.len() {
        let net = ins.at(i);
        let literal = layer_pin(sets, rows, layer, PinRef::GateIn(gate, i), net);
        args.set(i, literal);
    }
    args
}

/// The literal of a gate's function in a layer.
fn layer_literal(
    sets: &Seq<PinSet>,
    rows: &Seq<Seq<u64>>,
    layer: usize,
    place: usize,
    gate: &Gate,
    graph: &mut AndGraph,
) -> Result<u64, AllocError>
    requires few { length gate.now.ins ≤ 6 }
    requires sets { layer ≤ length sets.now }
    requires rows { layer < length rows.now }
    requires nets { (m : ℕ) → m ≤ layer → AllBelow (length (row_at rows.now m)) gate.now.ins }
    requires in_ { All (AreIn graph.old) rows.now }
    requires over { IsOver (length gate.now.ins) gate.now.func }
    ensures keeps { Keeps graph.old graph.new }
    ensures means { IfOk result (λ l. Means graph.new l (λ x. value gate.now.func
        (layer_pins false sets.now (shown_rows graph.old x rows.now) layer place gate.now.ins))) }
{
    let args = layer_args(sets, rows, layer, place, &gate.ins);
    graph.lower(&gate.func, &args)
}

/// Gives each gate output of a layer that is not in its set the literal of its function, in the order of the gates.
pub(crate) fn settle_layer(
    design: &Design,
    sets: &Seq<PinSet>,
    layer: usize,
    rows: &mut Seq<Seq<u64>>,
    graph: &mut AndGraph,
) -> Result<(), AllocError>
    requires sound { IsSound design.now }
    requires sets { layer ≤ length sets.now }
    requires rows { AreRowsFor graph.old design.now.nets layer rows.old }
    ensures keeps { OnOk result (Keeps graph.old graph.new) }
    ensures rows { OnOk result (AreRowsFor graph.new design.now.nets layer rows.new) }
    ensures kept { OnOk result (ChangesRow layer rows.old rows.new) }
    ensures settled { OnOk result ((x : List Bool) → length x ≡ graph.new.front
        → IsLayerSettled design.now sets.now layer (shown_rows graph.new x rows.old) (shown_rows graph.new x rows.new)) }
{
    for k in 0..design.gates.len() {
        let gate = design.gates.item(k);
        if !is_held(sets, layer, PinRef::Net(gate.out)) {
            let literal = layer_literal(sets, rows, layer, k, gate, graph)?;
            rows.put_in(layer, gate.out, literal);
        }
    }
    Ok(())
}

/// What the pins of an end register read in the last layer; the places after them have its own bit.
pub(crate) fn late_reg_args(
    sets: &Seq<PinSet>,
    rows: &Seq<Seq<u64>>,
    r: usize,
    ins: &Seq<usize>,
    own: u64,
) -> Args<u64>
    requires few { length ins.now ≤ 6 }
    requires rows { length sets.now < length rows.now }
    requires nets { (m : ℕ) → m ≤ length sets.now → AllBelow (length (row_at rows.now m)) ins.now }
    ensures { AreLateLiterals sets.now rows.now r ins.now own result }
{
    let mut args = Args::of(own);
    for i in 0..ins.len() {
        let net = ins.at(i);
        let literal = layer_pin(sets, rows, sets.len(), PinRef::RegIn(r, i), net);
        args.set(i, literal);
    }
    args
}
