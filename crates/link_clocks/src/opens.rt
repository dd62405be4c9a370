//! To which net the clock comes next: one that is not marked yet, to which it is handed on from one that is.
ghost use Rattle.std.specs.Prelude.{◌≡◌, ◌≤◌, ℕ, true, false, length, All, Contains, IfSome, IfNone};
ghost use Rattle.sdcv_base.specs.Seqs.{is_marked as marked};
ghost use Rattle.net_model.specs.Form.{IsOver, xor};
ghost use Rattle.net_model.specs.declared.netlist.Gate.{Gate as GateRecord};
ghost use Rattle.link_defs.specs.Parts.{inverts};
ghost use Rattle.link_design.specs.Lawful.{IsLawfulCircuit, IsLawfulPart};
ghost use Rattle.link_clocks.specs.Marks.{marked_at, is_reached, IsOpenGate, IsClosedGate, IsOpen, IsClosed, AreClosed, IsOpenPart, IsOpenAt, AreAllMarked};

use crate::marks::{ClockMarks, Reached, is_marked};
use link_defs::{Circuit, Part};
use net_model::{Args, Func, Gate, Value};
use sdcv_base::Seq;

/// A net to which the part at a place hands the clock on.
#[derive(Clone, Copy)]
pub(crate) struct Handed {
    pub(crate) place: usize,
    pub(crate) to: Reached,
}

/// A net to which the clock comes and that is not marked, if there is one. Parts are asked from a place on, and then those before it.
pub(crate) fn next_open(marks: &ClockMarks, circuit: &Circuit, from: usize) -> Option<Handed>
    requires lawful { IsLawfulCircuit circuit.now }
    requires from { from ≤ length circuit.now.parts }
    ensures some { IfSome result (IsOpenAt circuit.now marks.now) }
    ensures none { IfNone result (AreAllMarked circuit.now marks.now) }
{
    if let Some(net) = open_clock(marks, circuit.clocks.as_slice()) {
        let to = Reached { odd: false, net };
        return Some(Handed { place: from, to });
    }
    match open_in(marks, &circuit.parts, from, circuit.parts.len()) {
        Some(next) => Some(next),
        None => open_in(marks, &circuit.parts, 0, from),
    }
}

/// The first net of the clock that is not marked, if any.
fn open_clock(marks: &ClockMarks, clocks: &[usize]) -> Option<usize>
    ensures some { IfSome result (λ net. Contains clocks.now net × (marked marks.now.even net ≡ false)) }
    ensures none { IfNone result (All (λ net. marked marks.now.even net ≡ true) clocks.now) }
{
    clocks
        .iter()
        .copied()
        .find(|net| !is_marked(&marks.even, *net))
}

/// The first of the parts between two places that hands the clock on to a net that is not marked, with this net.
fn open_in(marks: &ClockMarks, parts: &Seq<Part>, from: usize, to: usize) -> Option<Handed>
    requires lawful { (nets : ℕ) × All (IsLawfulPart nets) parts.now }
    requires to { to ≤ length parts.now }
    ensures some { IfSome result (IsOpenPart marks.now parts.now) }
    ensures none { IfNone result (AreClosed marks.now parts.now from to) }
{
    for place in from..to {
        if let Some(to) = open_of(marks, parts.item(place)) {
            return Some(Handed { place, to });
        }
    }
    None
}

/// A net that is not marked and to which a part hands the clock on, if there is one.
fn open_of(marks: &ClockMarks, part: &Part) -> Option<Reached>
    requires { (nets : ℕ) × IsLawfulPart nets part.now }
    ensures some { IfSome result (IsOpen marks.now part.now) }
    ensures none { IfNone result (IsClosed marks.now part.now) }
{
    match part {
        Part::Comb { buffer, ins, gates } => {
            if !*buffer {
                return None;
            }
            match ins.as_slice().first() {
                Some(from) => open_gates(marks, *from, gates.as_slice()),
                None => None,
            }
        }
        Part::Flop { .. } => None,
        Part::Gate { clock, out, .. } => open_gated(marks, *clock, *out),
    }
}

/// The net that a clock gate drives, if the clock comes to the gate and the net is not marked.
fn open_gated(marks: &ClockMarks, clock: usize, out: usize) -> Option<Reached>
    ensures some { IfSome result (λ to. (to.net ≡ out) × (to.odd ≡ false) × (marked marks.now.even clock ≡ true) × (marked marks.now.even out ≡ false)) }
    ensures none { IfNone result (marked marks.now.even clock ≡ true → marked marks.now.even out ≡ true) }
{
    if is_marked(&marks.even, clock) && !is_marked(&marks.even, out) {
        Some(Reached {
            odd: false,
            net: out,
        })
    } else {
        None
    }
}

/// The first net of these gates of a buffer or an inverter that is not marked and to which the clock is handed on.
fn open_gates(marks: &ClockMarks, from: usize, gates: &[Gate]) -> Option<Reached>
    requires { All (λ (g : GateRecord). IsOver 7 g.func) gates.now }
    ensures some { IfSome result (λ to. (g : GateRecord) × Contains gates.now g × IsOpenGate marks.now from g to) }
    ensures none { IfNone result (All (IsClosedGate marks.now from) gates.now) }
{
    for gate in gates {
        if let Some(to) = open_gate(marks, from, gate) {
            return Some(to);
        }
    }
    None
}

/// The net of a gate, if the clock is handed on to it and it is not marked.
fn open_gate(marks: &ClockMarks, from: usize, gate: &Gate) -> Option<Reached>
    requires { IsOver 7 gate.now.func }
    ensures some { IfSome result (IsOpenGate marks.now from gate.now) }
    ensures none { IfNone result (IsClosedGate marks.now from gate.now) }
{
    match open_branch(marks, from, gate, false) {
        Some(to) => Some(to),
        None => open_branch(marks, from, gate, true),
    }
}

/// The same from the net as one after an odd or an even number of inversions.
fn open_branch(marks: &ClockMarks, from: usize, gate: &Gate, odd: bool) -> Option<Reached>
    requires { IsOver 7 gate.now.func }
    ensures odd { IfSome result (λ to. to.odd ≡ xor odd (inverts gate.now.func)) }
    ensures net { IfSome result (λ to. to.net ≡ gate.now.out) }
    ensures from { IfSome result (λ to. marked_at marks.now odd from ≡ true) }
    ensures fresh { IfSome result (λ to. is_reached marks.now to ≡ false) }
    ensures none { IfNone result (marked_at marks.now odd from ≡ true → marked_at marks.now (xor odd (inverts gate.now.func)) gate.now.out ≡ true) }
{
    let to = Reached {
        odd: odd ^ inverts(&gate.func),
        net: gate.out,
    };
    if marks.is_reached(Reached { odd, net: from }) && !marks.is_reached(to) {
        Some(to)
    } else {
        None
    }
}

/// Whether a function of one place gives the complement, if it depends on the place.
fn inverts(func: &Func) -> bool
    requires { IsOver 7 func.now }
    ensures { result ≡ inverts func.now }
{
    bool::apply(func, &Args::of(false))
}
