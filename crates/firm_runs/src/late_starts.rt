//! The layers of a cycle in which the start comes late, one after another, in three values.
ghost use Rattle.std.specs.Prelude.{◌≡◌, ◌≢◌, ◌<◌, ◌≤◌, ℕ, length, All, Contains, slice_index};
ghost use Rattle.net_model.specs.Netlist.{IsSound};
ghost use Rattle.net_model.specs.Fits.{IsStartIn};
ghost use Rattle.net_model.specs.Splitting.{tern_value};
ghost use Rattle.net_model.specs.Pins.{start_outs, start_nets, late_value};
ghost use Rattle.net_model.specs.Layers.{row_at, net_at, AreLayers};
ghost use Rattle.net_model.specs.RowChanges.{ChangesRow};
ghost use Rattle.net_model.specs.declared.netlist.RegOut.{RegOut as OutRecord};
ghost use Rattle.net_model.specs.declared.terns.Tern.TheVariants.{Zero};
ghost use Rattle.firm_runs.specs.Layers3.{first_tern};

use crate::layers::settle_layer;
use net_model::{Claim, Design, PinRef, PinSet, Start, Tern, is_held};
use sdcv_base::Seq;

/// The value that a net has in a layer before gates are settled: in the set of the layer that of the layer before, else
/// that of the cycle.
fn base_value(
    sets: &Seq<PinSet>,
    layer: usize,
    base: &Seq<Tern>,
    rows: &Seq<Seq<Tern>>,
    net: usize,
) -> Tern
    requires sets { layer ≤ length sets.now }
    requires rows { layer < length rows.now }
    requires low { net < length base.now }
    requires lens { (m : ℕ) → m ≤ layer → length (row_at rows.now m) ≡ length base.now }
    ensures { result ≡ first_tern sets.now rows.now layer base.now net }
{
    if is_held(sets, layer, PinRef::Net(net)) {
        rows.item(layer - 1).at(net)
    } else {
        base.at(net)
    }
}

/// Writes these values.
fn put_base_row(sets: &Seq<PinSet>, layer: usize, base: &Seq<Tern>, rows: &mut Seq<Seq<Tern>>)
    requires sets { layer ≤ length sets.now }
    requires rows { layer < length rows.old }
    requires lens { (m : ℕ) → m ≤ layer → length (row_at rows.old m) ≡ length base.now }
    ensures kept { ChangesRow layer rows.old rows.new }
    ensures row { (n : ℕ) → n < length base.now → net_at Zero rows.new layer n ≡ first_tern sets.now rows.old layer base.now n }
{
    for n in 0..base.len() {
        let value = base_value(sets, layer, base, rows, n);
        rows.put_in(layer, n, value);
    }
}

/// Writes a late value, or its complement, to the output nets of a register in the first layer.
pub fn put_late_reg(
    design: &Design,
    r: usize,
    value: Tern,
    inverted: Tern,
    rows: &mut Seq<Seq<Tern>>,
)
    requires sound { IsSound design.now }
    requires in_range { r < length design.now.regs }
    requires rows { 0 < length rows.old }
    requires len { length (row_at rows.old 0) ≡ design.now.nets }
    ensures kept { ChangesRow 0 rows.old rows.new }
    ensures late { All (λ (o : OutRecord). net_at Zero rows.new 0 o.net ≡ late_value value inverted o) (start_outs design.now (Start.Reg r)) }
    ensures others { (n : ℕ) → ¬ Contains (start_nets design.now (Start.Reg r)) n → net_at Zero rows.new 0 n ≡ net_at Zero rows.old 0 n }
{
    let reg = design.regs.item(r);
    let outs = &reg.outs;
    for o in 0..outs.len() {
        let out = outs.at(o);
        let shown = if out.inverted { inverted } else { value };
        rows.put_in(0, out.net, shown);
    }
}

/// Writes a late value to the net of an input in the first layer.
pub fn put_late_input(design: &Design, i: usize, value: Tern, rows: &mut Seq<Seq<Tern>>)
    requires sound { IsSound design.now }
    requires in_range { i < length design.now.inputs }
    requires rows { 0 < length rows.old }
    requires len { length (row_at rows.old 0) ≡ design.now.nets }
    ensures kept { ChangesRow 0 rows.old rows.new }
    ensures late { net_at Zero rows.new 0 (slice_index design.now.inputs i) ≡ value }
    ensures others { (n : ℕ) → n ≢ slice_index design.now.inputs i → net_at Zero rows.new 0 n ≡ net_at Zero rows.old 0 n }
{
    let net = design.inputs.at(i);
    rows.put_in(0, net, value);
}

/// Writes a late value, or its complement, to the nets of a start in the first layer.
fn put_late(design: &Design, start: &Start, value: Tern, inverted: Tern, rows: &mut Seq<Seq<Tern>>)
    requires sound { IsSound design.now }
    requires in_range { IsStartIn design.now start.now }
    requires rows { 0 < length rows.old }
    requires len { length (row_at rows.old 0) ≡ design.now.nets }
    ensures kept { ChangesRow 0 rows.old rows.new }
    ensures late { All (λ (o : OutRecord). net_at Zero rows.new 0 o.net ≡ late_value value inverted o) (start_outs design.now start.now) }
    ensures others { (n : ℕ) → ¬ Contains (start_nets design.now start.now) n → net_at Zero rows.new 0 n ≡ net_at Zero rows.old 0 n }
{
    match start {
        Start::Reg(r) => put_late_reg(design, *r, value, inverted, rows),
        Start::Input(i) => put_late_input(design, *i, value, rows),
    }
}

/// Makes the layers of a cycle, given its net values, in which the nets of the claim's start show a late value, and the
/// inverted ones the other value. There is one layer more than the claim has through sets.
pub fn make_layers3(
    design: &Design,
    claim: &Claim,
    value: Tern,
    inverted: Tern,
    base: &Seq<Tern>,
    rows: &mut Seq<Seq<Tern>>,
)
    requires sound { IsSound design.now }
    requires start { IsStartIn design.now claim.now.start }
    requires base { length base.now ≡ design.now.nets }
    requires rows { length claim.now.through < length rows.old }
    requires lens { (m : ℕ) → m ≤ length claim.now.through → length (row_at rows.old m) ≡ design.now.nets }
    ensures layers { AreLayers tern_value Zero design.now claim.now.start claim.now.through (late_value value inverted) base.now rows.new }
{
    let sets = &claim.through;
    put_base_row(sets, 0, base, rows);
    put_late(design, &claim.start, value, inverted, rows);
    settle_layer(design, sets, 0, rows);
    for l in 0..sets.len() {
        put_base_row(sets, l + 1, base, rows);
        settle_layer(design, sets, l + 1, rows);
    }
}
