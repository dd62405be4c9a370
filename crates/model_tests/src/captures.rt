//! Captures of a design by hand, against values worked out by hand and against a plain evaluator.
ghost use Rattle.std.specs.Prelude.{IfOk};
ghost use Rattle.net_model.specs.Netlist.{IsSound};
ghost use Rattle.net_model.specs.Fits.{Fits};
ghost use Rattle.net_model.specs.Cycles.{IsSettled};

use crate::slow_layers::SlowLayers;
use crate::sound_cases::sound_case;
use net_model::PinRef::{GateIn, Net, OutPort, RegIn};
use net_model::{Claim, Cycle, Design, Start, Tern, Value};
use net_samples::Ask::{In, Out, To, Via};
use net_samples::{Ask, Case, GLITCHING_PAIR};
use net_sim::{Layers, capture, layer_capture, settle};
use std::alloc::{AllocError, Global};
use std::process::Abort;
use ternary_sim::{Layers3, capture3};

// The settled cycle in which register 0 and input 1 have these bits, and other registers and inputs are 0.
fn cycle(
    rt: &impl Abort,
    alloc: Global,
    design: &Design,
    a: bool,
    e: bool,
) -> Result<Cycle, AllocError>
    requires sound { IsSound design.now }
    ensures { IfOk result (IsSettled design.now) }
{
    let mut cycle = Cycle::blank(alloc, design)?;
    assert!(rt; cycle.bits.len() > 0 && cycle.ins.len() > 1);
    cycle.bits.put(0, a);
    cycle.ins.put(1, e);
    settle(design, &mut cycle);
    Ok(cycle)
}

// The capture, the late captures with the stale bits 0 and 1, and the ternary capture.
fn captured(alloc: Global, case: &Case, cycle: &Cycle) -> Result<[Tern; 4], AllocError>
    requires sound { IsSound case.now.design }
    requires fits { Fits case.now.design case.now.claim }
    requires settled { IsSettled case.now.design cycle.now }
{
    let (design, claim) = (&case.design, &case.claim);
    let mut bits = Layers::new(alloc, design)?;
    let mut terns = Layers3::new(alloc, design)?;
    let own = capture(design, cycle, &claim.end);
    let low = layer_capture(design, claim, cycle, false, &mut bits);
    let high = layer_capture(design, claim, cycle, true, &mut bits);
    let glitch = capture3(design, claim, cycle, &mut terns);
    Ok([
        Tern::of_bit(own),
        Tern::of_bit(low),
        Tern::of_bit(high),
        glitch,
    ])
}

// The same by the plain evaluator. A cycle in which the start shows its own bit is the cycle itself.
fn evaluated(case: &Case, cycle: &Cycle, own: bool) -> [Tern; 4] {
    let (design, claim) = (&case.design, &case.claim);
    let layers = |late| {
        SlowLayers {
            design,
            claim,
            cycle,
            late,
        }
        .capture()
    };
    [
        layers(Tern::of_bit(own)),
        layers(Tern::Zero),
        layers(Tern::One),
        layers(Tern::Unknown),
    ]
}

const O: Tern = Tern::Zero;

const I: Tern = Tern::One;

const X: Tern = Tern::Unknown;

// A claim, and then for a and e 00, 01, 10 and 11 what the end captures, with each stale bit, and where the start is
// unknown.
struct Row(&'static [Ask], &'static [[Tern; 4]]);

const A_AND_E: &[(bool, bool)] = &[(false, false), (false, true), (true, false), (true, true)];

// Both the simulators and the plain evaluator have these values.
fn check_values(
    rt: &impl Abort,
    alloc: Global,
    case: &Case,
    a: bool,
    e: bool,
    want: &[Tern; 4],
) -> Result<(), AllocError>
    requires sound { IsSound case.now.design }
    requires fits { Fits case.now.design case.now.claim }
{
    let cycle = cycle(rt, alloc, &case.design, a, e)?;
    assert_eq!(rt; captured(alloc, case, &cycle)?, *want);
    let own = case.claim.start == Start::Reg(0) && a || case.claim.start == Start::Input(1) && e;
    assert_eq!(rt; evaluated(case, &cycle, own), *want);
    Ok(())
}

fn check_case(
    rt: &impl Abort,
    alloc: Global,
    case: &Case,
    words: &[[Tern; 4]],
) -> Result<(), AllocError>
    requires sound { IsSound case.now.design }
    requires fits { Fits case.now.design case.now.claim }
{
    for ((a, e), want) in A_AND_E.iter().zip(words) {
        check_values(rt, alloc, case, *a, *e, want)?;
    }
    Ok(())
}

fn check_row(rt: &impl Abort, alloc: Global, row: &Row) -> Result<(), AllocError> {
    let case = sound_case(rt, alloc, GLITCHING_PAIR, row.0)?;
    check_case(rt, alloc, &case, row.1)
}

// Worked out by hand.
const CAPTURES: &[Row] = &[
    // The start reaches net 5 on both of its nets, so four gates may glitch where one cell of the same function does not.
    Row(
        &[Out(0)],
        &[[I, I, O, X], [I, I, I, X], [O, I, O, X], [I, I, I, X]],
    ),
    Row(
        &[Out(2)],
        &[[I, I, O, X], [I, I, I, I], [O, I, O, X], [I, I, I, I]],
    ),
    Row(
        &[Out(1)],
        &[[O, O, I, X], [O, O, I, X], [I, O, I, X], [I, O, I, X]],
    ),
    // A late value passes only through pins of the sets in their order; one pin may meet two sets.
    Row(
        &[Via(GateIn(0, 0)), Via(GateIn(0, 0))],
        &[[I, I, I, I], [I, I, I, I], [O, O, O, O], [I, O, I, X]],
    ),
    Row(
        &[Via(GateIn(0, 0)), Via(GateIn(1, 1))],
        &[[I, I, I, I], [I, I, I, I], [O, O, O, O], [I, I, I, I]],
    ),
    Row(
        &[Via(Net(2)), Via(Net(4))],
        &[[I, I, I, I], [I, I, I, I], [O, O, O, O], [I, O, I, X]],
    ),
    Row(
        &[Via(Net(4)), Via(Net(2))],
        &[[I, I, I, I], [I, I, I, I], [O, O, O, O], [I, I, I, I]],
    ),
    Row(
        &[Via(RegIn(1, 0))],
        &[[I, I, O, X], [I, I, I, X], [O, I, O, X], [I, I, I, X]],
    ),
    // A pin that drives a net of the start keeps that net late, and the start's other net is as in the cycle.
    Row(
        &[Via(Net(2))],
        &[[I, I, I, I], [I, I, I, I], [O, O, O, O], [I, O, I, X]],
    ),
    Row(
        &[Via(Net(3))],
        &[[I, I, O, X], [I, I, O, X], [O, I, O, X], [I, I, I, I]],
    ),
    Row(
        &[Out(0), Via(OutPort(0))],
        &[[I, I, O, X], [I, I, I, X], [O, I, O, X], [I, I, I, X]],
    ),
    Row(
        &[Out(1), Via(Net(5))],
        &[[O, O, O, O], [O, O, O, O], [I, I, I, I], [I, I, I, I]],
    ),
    // Clear and preset of registers 2 and 3 are both e: they then capture 1 and 0, however their data pin glitches.
    Row(
        &[To(2)],
        &[[I, I, O, X], [I, I, I, I], [O, I, O, X], [I, I, I, I]],
    ),
    Row(
        &[To(3)],
        &[[I, I, O, X], [O, O, O, O], [O, I, O, X], [O, O, O, O]],
    ),
    Row(
        &[In(1), To(3)],
        &[[I, I, O, X], [O, I, O, X], [O, O, O, X], [O, O, O, X]],
    ),
    Row(
        &[In(1), To(3), Via(RegIn(3, 1))],
        &[[I, I, O, X], [O, I, O, X], [O, O, O, O], [O, I, O, X]],
    ),
    // An input that comes late, at an output port and at a register that takes it.
    Row(
        &[In(1), Out(0)],
        &[[I, I, I, I], [I, I, I, I], [O, O, I, X], [I, O, I, X]],
    ),
    Row(
        &[In(0), To(0)],
        &[[O, O, I, X], [O, O, I, X], [O, O, I, X], [O, O, I, X]],
    ),
];

#[test]
fn captures_are_those_worked_out_by_hand(rt: HostRuntime) -> Result<(), AllocError> {
    for row in CAPTURES {
        check_row(&rt, rt.alloc(), row)?;
    }
    Ok(())
}
