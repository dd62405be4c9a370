//! What registers capture at a gated clock edge, by hand.
ghost use Rattle.std.specs.Prelude.{IfOk};
ghost use Rattle.icg_rewrite.specs.Gated.{AreGated};
ghost use Rattle.net_model.specs.Netlist.{IsSound};
ghost use Rattle.net_model.specs.Cycles.{IsSettled};

use crate::gated_building::{add_gate, is_below, put_behind, ungated};
use crate::sound_cases::sound_design;
use icg_rewrite::{Gated, RewriteFault, rewrite};
use net_model::{Cycle, Design};
use net_samples::Form::{Choice, Pin};
use net_samples::Out::Q;
use net_samples::Part::{Holds, Nets};
use net_samples::{Controls, Part};
use net_sim::{settle, step};
use sdcv_base::Seq;
use std::alloc::{AllocError, Global};
use std::process::Abort;

/// A design with clock gates: its parts, the net of the enable of each clock gate with its parent, and registers with the
/// clock gates behind which they stand.
struct Sample {
    parts: &'static [Part],
    gates: &'static [(usize, Option<usize>)],
    behind: &'static [(usize, usize)],
}

const PLAIN: Controls = Controls(None, None, false);

const CLEARED: Controls = Controls(Some(Pin(1)), None, false);

// Nets 0 and 1 are for enables, net 2 is the data and net 3 clears the register.
const FLOP: &[Part] = &[
    Nets(5, &[0, 1, 2, 3]),
    Holds(Pin(0), CLEARED, &[2, 3], &[Q(4)]),
];

const UNGATED: Sample = Sample {
    parts: FLOP,
    gates: &[],
    behind: &[],
};

const ONE_GATE: Sample = Sample {
    parts: FLOP,
    gates: &[(0, None)],
    behind: &[(0, 0)],
};

const BELOW_ANOTHER: Sample = Sample {
    parts: FLOP,
    gates: &[(0, None), (1, Some(0))],
    behind: &[(0, 1)],
};

const BELOW_THE_FIRST: Sample = Sample {
    parts: FLOP,
    gates: &[(0, None), (1, Some(0))],
    behind: &[(0, 0)],
};

// The register takes its data, net 1, where net 2 is 1, and else its own bit. Net 0 is for the clock gate.
const WITH_ENABLE: Sample = Sample {
    parts: &[
        Nets(4, &[0, 1, 2]),
        Holds(Choice(0, 2, 1), PLAIN, &[1, 2], &[Q(3)]),
    ],
    gates: &[(0, None)],
    behind: &[(0, 0)],
};

const ONE_OF_TWO: Sample = Sample {
    parts: &[
        Nets(4, &[0, 1]),
        Holds(Pin(0), PLAIN, &[1], &[Q(2)]),
        Holds(Pin(0), PLAIN, &[1], &[Q(3)]),
    ],
    gates: &[(0, None)],
    behind: &[(1, 0)],
};

const SIX_PINS: Sample = Sample {
    parts: &[
        Nets(4, &[0, 1]),
        Holds(Pin(0), PLAIN, &[1], &[Q(2)]),
        Holds(Pin(0), PLAIN, &[1, 1, 1, 1, 1, 1], &[Q(3)]),
    ],
    gates: &[(0, None)],
    behind: &[(0, 0), (1, 0)],
};

fn gated(rt: &impl Abort, alloc: Global, sample: &Sample) -> Result<Gated, AllocError>
    ensures { IfOk result AreGated }
{
    let mut gated = ungated(alloc, sound_design(rt, alloc, sample.parts)?)?;
    for (enable, parent) in sample.gates {
        assert!(rt; *enable < gated.design.nets);
        assert!(rt; is_below(gated.gates.len(), *parent));
        add_gate(alloc, &mut gated, *enable, *parent)?;
    }
    for (reg, gate) in sample.behind {
        put_behind(rt, &mut gated, *reg, *gate);
    }
    Ok(gated)
}

fn rewritten(rt: &impl Abort, alloc: Global, sample: &Sample) -> Result<Design, AllocError>
    ensures { IfOk result IsSound }
{
    let gated = gated(rt, alloc, sample)?;
    rewrite(alloc, &gated).map_err(|_| AllocError)
}

/// Bits of registers and inputs, and what the registers then capture.
struct Edge(
    &'static str,
    Sample,
    &'static [bool],
    &'static [bool],
    &'static [bool],
);

// The settled cycle in which registers and inputs have these bits.
fn settled(
    rt: &impl Abort,
    alloc: Global,
    design: &Design,
    edge: &Edge,
) -> Result<Cycle, AllocError>
    requires { IsSound design.now }
    ensures { IfOk result (IsSettled design.now) }
{
    let mut cycle = Cycle::blank(alloc, design)?;
    cycle.bits = Seq::of(alloc, edge.2)?;
    cycle.ins = Seq::of(alloc, edge.3)?;
    assert!(rt; cycle.bits.len() == design.regs.len());
    assert!(rt; cycle.ins.len() == design.inputs.len());
    settle(design, &mut cycle);
    Ok(cycle)
}

fn check_edge(rt: &impl Abort, alloc: Global, edge: &Edge) -> Result<(), AllocError> {
    let design = rewritten(rt, alloc, &edge.1)?;
    let cycle = settled(rt, alloc, &design, edge)?;
    let mut next = Cycle::blank(alloc, &design)?;
    step(&design, &cycle, &mut next);
    assert!(rt; next.bits.as_slice() == edge.4, "{}", edge.0);
    Ok(())
}

const O: bool = false;

const I: bool = true;

const EDGES: &[Edge] = &[
    Edge("no gate", UNGATED, &[O], &[O, O, I, O], &[I]),
    Edge("open", ONE_GATE, &[O], &[I, O, I, O], &[I]),
    Edge("closed, holds 0", ONE_GATE, &[O], &[O, O, I, O], &[O]),
    Edge("closed, holds 1", ONE_GATE, &[I], &[O, O, O, O], &[I]),
    Edge("closed, clear acts", ONE_GATE, &[I], &[O, O, I, I], &[O]),
    Edge("parent closed", BELOW_ANOTHER, &[O], &[O, I, I, O], &[O]),
    Edge("own gate closed", BELOW_ANOTHER, &[O], &[I, O, I, O], &[O]),
    Edge("both open", BELOW_ANOTHER, &[O], &[I, I, I, O], &[I]),
    Edge("first open", BELOW_THE_FIRST, &[O], &[I, O, I, O], &[I]),
    // A next state that reads the own bit reads it and not the clock gate, which is 1.
    Edge("keeps 0", WITH_ENABLE, &[O], &[I, I, O], &[O]),
    Edge("keeps 1", WITH_ENABLE, &[I], &[I, O, O], &[I]),
    Edge("takes 1", WITH_ENABLE, &[O], &[I, I, I], &[I]),
    Edge("one of two", ONE_OF_TWO, &[O, O], &[O, I], &[I, O]),
];

#[test]
fn gated_edges_capture_what_is_worked_out_by_hand(rt: HostRuntime) -> Result<(), AllocError> {
    for edge in EDGES {
        check_edge(&rt, rt.alloc(), edge)?;
    }
    Ok(())
}

#[test]
fn a_register_with_six_pins_has_no_room_for_an_enable(rt: HostRuntime) -> Result<(), AllocError> {
    let gated = gated(&rt, rt.alloc(), &SIX_PINS)?;
    let refused = rewrite(rt.alloc(), &gated).err();
    assert_eq!(rt; refused, Some(RewriteFault::Pins(1)));
    Ok(())
}
