//! The literals of nets.
ghost use Rattle.std.specs.Prelude.{◌≡◌, ◌≤◌, ◌<◌, ℕ, false, Bool, List, OnOk, IfOk, length, Contains, All, Some, slice_get, slice_index};
ghost use Rattle.net_model.specs.Form.{value, IsOver};
ghost use Rattle.net_model.specs.Rows.{pins_of, AreGatesSettled};
ghost use Rattle.net_model.specs.Netlist.{IsSound, AllBelow, before_reg, source_nets};
ghost use Rattle.net_model.specs.Cycles.{bit_at, shown};
ghost use Rattle.net_model.specs.declared.netlist.RegOut.{RegOut};
ghost use Rattle.net_model.specs.declared.netlist.Reg.{Reg as RegRecord};
ghost use Rattle.and_graphs.specs.Graphs.{IsIn, Means, Keeps, bit_of};
ghost use Rattle.and_graphs.specs.declared.graphs.AndGraph.{AndGraph as Graph};
ghost use Rattle.claim_monitor.specs.Shown.{AreIn, AreNetLiterals, ArePinLiterals, shown_row};

use and_graphs::{AndGraph, complement};
use net_model::{Args, Design, Gate};
use sdcv_base::Seq;
use std::alloc::{AllocError, Global};

/// Writes each input's literal to its net.
fn put_inputs(design: &Design, ins: &Seq<u64>, nets: &mut Seq<u64>)
    requires sound { IsSound design.now }
    requires ins { length ins.now ≡ length design.now.inputs }
    requires len { length nets.old ≡ design.now.nets }
    ensures len { length nets.new ≡ design.now.nets }
    ensures in_ { (g : Graph) → AreIn g ins.now → AreIn g nets.old → AreIn g nets.new }
    ensures shown { (g : Graph) (x : List Bool) (i : ℕ) → i < length design.now.inputs
        → bit_at (shown_row g x nets.new) (slice_index design.now.inputs i) ≡ bit_at (shown_row g x ins.now) i }
{
    for input in 0..design.inputs.len() {
        let net = design.inputs.at(input);
        let literal = ins.at(input);
        nets.put(net, literal);
    }
}

/// What an output net shows of its register's literal.
fn shown_literal(inverted: bool, bit: u64) -> u64
    ensures { (g : Graph) (f : List Bool → Bool) (net : ℕ) → Means g bit f
        → Means g result (λ x. shown (record { net = net; inverted = inverted }) (f x)) }
{
    if inverted { complement(bit) } else { bit }
}

/// Writes a register's literal, or its complement, to the register's output nets.
fn put_reg(design: &Design, r: usize, bit: u64, nets: &mut Seq<u64>)
    requires sound { IsSound design.now }
    requires in_range { r < length design.now.regs }
    requires len { length nets.old ≡ design.now.nets }
    ensures len { length nets.new ≡ design.now.nets }
    ensures in_ { (g : Graph) → IsIn g bit → AreIn g nets.old → AreIn g nets.new }
    ensures kept { (g : Graph) (x : List Bool) (n : ℕ) → IsIn g bit → length x ≡ g.front → Contains (before_reg design.now r) n
        → bit_at (shown_row g x nets.new) n ≡ bit_at (shown_row g x nets.old) n }
    ensures shown { (g : Graph) (x : List Bool) (reg : RegRecord) → IsIn g bit → length x ≡ g.front → slice_get design.now.regs r ≡ Some reg
        → All (λ (o : RegOut). bit_at (shown_row g x nets.new) o.net ≡ shown o (bit_of g x bit)) reg.outs }
{
    let reg = design.regs.item(r);
    let outs = &reg.outs;
    for o in 0..outs.len() {
        let out = outs.at(o);
        let literal = shown_literal(out.inverted, bit);
        nets.put(out.net, literal);
    }
}

/// Writes the literals of all registers to their output nets.
fn put_regs(design: &Design, bits: &Seq<u64>, nets: &mut Seq<u64>)
    requires sound { IsSound design.now }
    requires bits { length bits.now ≡ length design.now.regs }
    requires len { length nets.old ≡ design.now.nets }
    ensures len { length nets.new ≡ design.now.nets }
    ensures in_ { (g : Graph) → AreIn g bits.now → AreIn g nets.old → AreIn g nets.new }
    ensures kept { (g : Graph) (x : List Bool) (n : ℕ) → AreIn g bits.now → length x ≡ g.front → Contains design.now.inputs n
        → bit_at (shown_row g x nets.new) n ≡ bit_at (shown_row g x nets.old) n }
    ensures shown { (g : Graph) (x : List Bool) → AreIn g bits.now → length x ≡ g.front → (r : ℕ) (reg : RegRecord)
        → slice_get design.now.regs r ≡ Some reg
        → All (λ (o : RegOut). bit_at (shown_row g x nets.new) o.net ≡ shown o (bit_at (shown_row g x bits.now) r)) reg.outs }
{
    for r in 0..design.regs.len() {
        put_reg(design, r, bits.at(r), nets);
    }
}

/// The literals that pins on these nets read; the places after them have that of the constant 0.
pub(crate) fn pin_literals(ins: &Seq<usize>, nets: &Seq<u64>) -> Args<u64>
    requires few { length ins.now ≤ 6 }
    requires in_range { AllBelow (length nets.now) ins.now }
    ensures { ArePinLiterals ins.now nets.now result }
{
    let mut args = Args::of(0);
    for i in 0..ins.len() {
        args.set(i, nets.at(ins.at(i)));
    }
    args
}

/// The literal of a gate's output.
fn gate_literal(gate: &Gate, nets: &Seq<u64>, graph: &mut AndGraph) -> Result<u64, AllocError>
    requires few { length gate.now.ins ≤ 6 }
    requires in_range { AllBelow (length nets.now) gate.now.ins }
    requires over { IsOver (length gate.now.ins) gate.now.func }
    requires in_ { AreIn graph.old nets.now }
    ensures keeps { Keeps graph.old graph.new }
    ensures means { IfOk result (λ l. Means graph.new l (λ x. value gate.now.func (pins_of false gate.now.ins (shown_row graph.old x nets.now)))) }
{
    let args = pin_literals(&gate.ins, nets);
    graph.lower(&gate.func, &args)
}

/// Gives each gate output the literal of its function, in the order of the gates.
fn settle(design: &Design, nets: &mut Seq<u64>, graph: &mut AndGraph) -> Result<(), AllocError>
    requires sound { IsSound design.now }
    requires len { length nets.old ≡ design.now.nets }
    requires in_ { AreIn graph.old nets.old }
    ensures keeps { OnOk result (Keeps graph.old graph.new) }
    ensures len { OnOk result (length nets.new ≡ design.now.nets) }
    ensures in_ { OnOk result (AreIn graph.new nets.new) }
    ensures sources { OnOk result ((x : List Bool) (n : ℕ) → length x ≡ graph.new.front → Contains (source_nets design.now) n
        → bit_at (shown_row graph.new x nets.new) n ≡ bit_at (shown_row graph.new x nets.old) n) }
    ensures gates { OnOk result ((x : List Bool) → length x ≡ graph.new.front
        → AreGatesSettled value false design.now.gates (shown_row graph.new x nets.new)) }
{
    for k in 0..design.gates.len() {
        let gate = design.gates.item(k);
        let literal = gate_literal(gate, nets, graph)?;
        nets.put(gate.out, literal);
    }
    Ok(())
}

/// The literals of all nets, given those of registers and inputs.
pub(crate) fn net_literals(
    alloc: Global,
    design: &Design,
    bits: &Seq<u64>,
    ins: &Seq<u64>,
    graph: &mut AndGraph,
) -> Result<Seq<u64>, AllocError>
    requires sound { IsSound design.now }
    requires bits { length bits.now ≡ length design.now.regs }
    requires ins { length ins.now ≡ length design.now.inputs }
    requires in_bits { AreIn graph.old bits.now }
    requires in_ins { AreIn graph.old ins.now }
    ensures keeps { OnOk result (Keeps graph.old graph.new) }
    ensures nets { IfOk result (AreNetLiterals graph.new design.now bits.now ins.now) }
{
    let mut nets = Seq::filled(alloc, 0, design.nets)?;
    put_inputs(design, ins, &mut nets);
    put_regs(design, bits, &mut nets);
    settle(design, &mut nets, graph)?;
    Ok(nets)
}
