//! What the end captures where the start comes late, as a literal.
ghost use Rattle.std.specs.Prelude.{◌≡◌, ◌≤◌, ◌<◌, ℕ, false, not, Bool, List, All, OnOk, IfOk, length};
ghost use Rattle.net_model.specs.Form.{value};
ghost use Rattle.net_model.specs.Netlist.{IsSound};
ghost use Rattle.net_model.specs.Fits.{Fits, IsStartIn, IsEndIn};
ghost use Rattle.net_model.specs.Cycles.{shown};
ghost use Rattle.net_model.specs.Judge.{start_bit};
ghost use Rattle.net_model.specs.Layers.{row_at, net_at, capture_over, AreLayers, IsLateCapture};
ghost use Rattle.net_model.specs.RowChanges.{ChangesRow};
ghost use Rattle.and_graphs.specs.Graphs.{IsIn, Means, Keeps, bit_of};
ghost use Rattle.and_graphs.specs.declared.graphs.AndGraph.{AndGraph as Graph};
ghost use Rattle.claim_monitor.specs.Shown.{AreIn, AreLiteralsFor, shown_row, shown_cycle};
ghost use Rattle.claim_monitor.specs.Layered.{AreRowsFor, ShowsLate, base_literal as base_lit, shown_rows};

use crate::captures::reg_capture_literal;
use crate::cycle_literals::Literals;
use crate::layers::{late_reg_args, layer_pin, settle_layer};
use and_graphs::{AndGraph, complement};
use net_model::{Claim, Design, End, PinRef, PinSet, Start, is_held};
use sdcv_base::Seq;
use std::alloc::{AllocError, Global};

/// The literal that a net has in a layer before gates are settled: in the set of the layer that of the layer before, else that
/// of the cycle.
fn base_literal(
    sets: &Seq<PinSet>,
    layer: usize,
    base: &Seq<u64>,
    rows: &Seq<Seq<u64>>,
    net: usize,
) -> u64
    requires sets { layer ≤ length sets.now }
    requires rows { layer < length rows.now }
    requires low { net < length base.now }
    requires lens { (m : ℕ) → m ≤ layer → length (row_at rows.now m) ≡ length base.now }
    ensures { result ≡ base_lit sets.now rows.now layer base.now net }
{
    if is_held(sets, layer, PinRef::Net(net)) {
        rows.item(layer - 1).at(net)
    } else {
        base.at(net)
    }
}

/// Writes these literals.
fn put_base_row(sets: &Seq<PinSet>, layer: usize, base: &Seq<u64>, rows: &mut Seq<Seq<u64>>)
    requires sets { layer ≤ length sets.now }
    requires rows { layer < length rows.old }
    requires lens { (m : ℕ) → m ≤ layer → length (row_at rows.old m) ≡ length base.now }
    ensures kept { ChangesRow layer rows.old rows.new }
    ensures in_ { (g : Graph) → AreIn g base.now → All (AreIn g) rows.old → All (AreIn g) rows.new }
    ensures row { (n : ℕ) → n < length base.now → net_at 0 rows.new layer n ≡ base_lit sets.now rows.old layer base.now n }
{
    for n in 0..base.len() {
        let literal = base_literal(sets, layer, base, rows, n);
        rows.put_in(layer, n, literal);
    }
}

/// What an output net shows of a late literal.
fn shown_late(inverted: bool, literal: u64) -> u64
    ensures { (g : Graph) (f : List Bool → Bool) (net : ℕ) → Means g literal f
        → Means g result (λ x. shown (record { net = net; inverted = inverted }) (f x)) }
{
    if inverted {
        complement(literal)
    } else {
        literal
    }
}

/// Writes a late literal, or its complement, to the output nets of a register in the first layer.
fn put_late_reg(design: &Design, r: usize, literal: u64, rows: &mut Seq<Seq<u64>>)
    requires sound { IsSound design.now }
    requires in_range { r < length design.now.regs }
    requires rows { 0 < length rows.old }
    requires len { length (row_at rows.old 0) ≡ design.now.nets }
    ensures kept { ChangesRow 0 rows.old rows.new }
    ensures late { (g : Graph) → IsIn g literal → ShowsLate g design.now (Start.Reg r) literal rows.old rows.new }
{
    let reg = design.regs.item(r);
    let outs = &reg.outs;
    for o in 0..outs.len() {
        let out = outs.at(o);
        let shown = shown_late(out.inverted, literal);
        rows.put_in(0, out.net, shown);
    }
}

/// Writes a late literal to the net of an input in the first layer.
fn put_late_input(design: &Design, i: usize, literal: u64, rows: &mut Seq<Seq<u64>>)
    requires sound { IsSound design.now }
    requires in_range { i < length design.now.inputs }
    requires rows { 0 < length rows.old }
    requires len { length (row_at rows.old 0) ≡ design.now.nets }
    ensures kept { ChangesRow 0 rows.old rows.new }
    ensures late { (g : Graph) → IsIn g literal → ShowsLate g design.now (Start.Input i) literal rows.old rows.new }
{
    let net = design.inputs.at(i);
    rows.put_in(0, net, literal);
}

/// Writes a late literal, or its complement, to the nets of a start in the first layer.
fn put_late(design: &Design, start: &Start, literal: u64, rows: &mut Seq<Seq<u64>>)
    requires sound { IsSound design.now }
    requires in_range { IsStartIn design.now start.now }
    requires rows { 0 < length rows.old }
    requires len { length (row_at rows.old 0) ≡ design.now.nets }
    ensures kept { ChangesRow 0 rows.old rows.new }
    ensures late { (g : Graph) → IsIn g literal → ShowsLate g design.now start.now literal rows.old rows.new }
{
    match start {
        Start::Reg(r) => put_late_reg(design, *r, literal, rows),
        Start::Input(i) => put_late_input(design, *i, literal, rows),
    }
}

/// Makes the layers of a cycle, given the literals of its nets, in which the nets of the claim's start show a late literal.
fn make_layers(
    design: &Design,
    claim: &Claim,
    literal: u64,
    base: &Seq<u64>,
    rows: &mut Seq<Seq<u64>>,
    graph: &mut AndGraph,
) -> Result<(), AllocError>
    requires sound { IsSound design.now }
    requires start { IsStartIn design.now claim.now.start }
    requires literal { IsIn graph.old literal }
    requires base { length base.now ≡ design.now.nets }
    requires in_base { AreIn graph.old base.now }
    requires rows { AreRowsFor graph.old design.now.nets (length claim.now.through) rows.old }
    ensures keeps { OnOk result (Keeps graph.old graph.new) }
    ensures rows { OnOk result (AreRowsFor graph.new design.now.nets (length claim.now.through) rows.new) }
    ensures layers { OnOk result ((x : List Bool) → length x ≡ graph.new.front
        → AreLayers value false design.now claim.now.start claim.now.through (λ o. shown o (bit_of graph.new x literal))
        (shown_row graph.new x base.now) (shown_rows graph.new x rows.new)) }
{
    let sets = &claim.through;
    put_base_row(sets, 0, base, rows);
    put_late(design, &claim.start, literal, rows);
    settle_layer(design, sets, 0, rows, graph)?;
    for l in 0..sets.len() {
        put_base_row(sets, l + 1, base, rows);
        settle_layer(design, sets, l + 1, rows, graph)?;
    }
    Ok(())
}

/// Room for the literals of all layers: the first, and one for each through set.
fn empty_layers(alloc: Global, design: &Design, claim: &Claim) -> Result<Seq<Seq<u64>>, AllocError>
    requires { length claim.now.through ≤ 4 }
    ensures { IfOk result (λ rows. (g : Graph) → AreRowsFor g design.now.nets (length claim.now.through) rows) }
{
    let mut rows = Seq::new(alloc);
    for _ in 0..claim.through.len() + 1 {
        rows.push(Seq::filled(alloc, 0, design.nets)?)?;
    }
    Ok(rows)
}

/// The literal of the end's capture over the last of the layers.
fn capture_last(
    alloc: Global,
    design: &Design,
    claim: &Claim,
    literals: &Literals,
    rows: &Seq<Seq<u64>>,
    graph: &mut AndGraph,
) -> Result<u64, AllocError>
    requires sound { IsSound design.now }
    requires end { IsEndIn design.now claim.now.end }
    requires literals { AreLiteralsFor graph.old design.now literals.now }
    requires rows { AreRowsFor graph.old design.now.nets (length claim.now.through) rows.now }
    ensures keeps { Keeps graph.old graph.new }
    ensures means { IfOk result (λ l. Means graph.new l (λ x. capture_over design.now claim.now.through (shown_rows graph.old x rows.now) claim.now.end
        (shown_cycle graph.old x literals.now))) }
{
    let sets = &claim.through;
    match &claim.end {
        End::Reg(r) => {
            let reg = design.regs.item(*r);
            let own = literals.bits.at(*r);
            let args = late_reg_args(sets, rows, *r, &reg.ins, own);
            reg_capture_literal(alloc, reg, &args, graph)
        }
        End::Output(o) => {
            let net = design.outputs.at(*o);
            Ok(layer_pin(sets, rows, sets.len(), PinRef::OutPort(*o), net))
        }
    }
}

/// The literal of what the claim's end captures where its start, in the first layer, shows the complement of its bit.
pub(crate) fn flipped_literal(
    alloc: Global,
    design: &Design,
    claim: &Claim,
    literals: &Literals,
    start: u64,
    graph: &mut AndGraph,
) -> Result<u64, AllocError>
    requires sound { IsSound design.now }
    requires fits { Fits design.now claim.now }
    requires literals { AreLiteralsFor graph.old design.now literals.now }
    requires start { Means graph.old start (λ x. start_bit claim.now.start (shown_cycle graph.old x literals.now)) }
    ensures keeps { OnOk result (Keeps graph.old graph.new) }
    ensures late { IfOk result (λ l. IsIn graph.new l × ((x : List Bool) → length x ≡ graph.new.front
        → IsLateCapture design.now claim.now (shown_cycle graph.new x literals.now)
        (not (start_bit claim.now.start (shown_cycle graph.new x literals.now))) (bit_of graph.new x l))) }
{
    let late = complement(start);
    let mut rows = empty_layers(alloc, design, claim)?;
    make_layers(design, claim, late, &literals.nets, &mut rows, graph)?;
    let literal = capture_last(alloc, design, claim, literals, &rows, graph)?;
    Ok(literal)
}
