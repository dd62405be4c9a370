//! Functions, and what a register captures, against values by hand.
ghost use Rattle.std.specs.Prelude.{IfOk};
ghost use Rattle.net_model.specs.Form.{IsOver};
ghost use Rattle.net_model.specs.Netlist.{IsOptionOver};

use net_model::{Args, Func, Reg, RegOut, Tern, Value, capture_func};
use sdcv_base::Seq;
use std::alloc::{AllocError, Global};

// Place 0 where select, place 2, is 1, else place 1.
fn multiplexer(alloc: Global) -> Result<Func, AllocError>
    ensures { IfOk result (IsOver 7) }
{
    let first = Func::and(alloc, Func::pin(2), Func::pin(0))?;
    let unselected = Func::not(alloc, Func::pin(2))?;
    let second = Func::and(alloc, unselected, Func::pin(1))?;
    Func::or(alloc, first, second)
}

/// The values of a multiplexer's data and select, and of its output.
struct Selected(Tern, Tern, Tern, Tern);

// A select input that is unknown matters only where the two data differ: with equal data the output of a multiplexer as
// one cell is that bit (no hazard inside a cell), else unknown.
const SELECTED: &[Selected] = &[
    Selected(Tern::Zero, Tern::One, Tern::Zero, Tern::One),
    Selected(Tern::Zero, Tern::One, Tern::One, Tern::Zero),
    Selected(Tern::One, Tern::One, Tern::Unknown, Tern::One),
    Selected(Tern::Zero, Tern::Zero, Tern::Unknown, Tern::Zero),
    Selected(Tern::Zero, Tern::One, Tern::Unknown, Tern::Unknown),
    Selected(Tern::Unknown, Tern::One, Tern::One, Tern::Unknown),
    Selected(Tern::Unknown, Tern::One, Tern::Zero, Tern::One),
];

fn copied(alloc: Global) -> Result<Func, AllocError>
    ensures { IfOk result (IsOver 7) }
{
    let mux = multiplexer(alloc)?;
    mux.copy(alloc)
}

fn output_of(mux: &Func, row: &Selected) -> Tern
    requires { IsOver 7 mux.now }
{
    let mut args = Args::of(row.0);
    args.set(1, row.1);
    args.set(2, row.2);
    Tern::apply(mux, &args)
}

#[test]
fn a_multiplexer_as_one_cell_has_no_hazard_inside(rt: HostRuntime) -> Result<(), AllocError> {
    let mux = copied(rt.alloc())?;
    for (place, row) in SELECTED.iter().enumerate() {
        assert_eq!(rt; output_of(&mux, row), row.3, "row {place}");
    }
    Ok(())
}

// A toggle register: the next state is place 0 xor the own bit, place 3, clear is place 1 and preset place 2.
fn toggle(alloc: Global, both: bool) -> Result<Reg, AllocError>
    ensures next { IfOk result (λ reg. IsOver 7 reg.next) }
    ensures clear { IfOk result (λ reg. IsOptionOver 7 reg.clear) }
    ensures preset { IfOk result (λ reg. IsOptionOver 7 reg.preset) }
{
    Ok(Reg {
        next: Func::xor(alloc, Func::pin(0), Func::pin(3))?,
        clear: Some(Func::pin(1)),
        preset: Some(Func::pin(2)),
        both,
        ins: Seq::of(alloc, &[0, 0, 0])?,
        outs: Seq::one(
            alloc,
            RegOut {
                net: 2,
                inverted: false,
            },
        )?,
    })
}

fn toggle_capture(alloc: Global, both: bool) -> Result<Func, AllocError>
    ensures { IfOk result (IsOver 7) }
{
    let reg = toggle(alloc, both)?;
    let func = capture_func(alloc, &reg)?;
    Ok(func)
}

/// Place 0, clear, preset, the own bit, the value where clear and preset are both 1, and what is captured.
struct Captured(bool, bool, bool, bool, bool, bool);

// Liberty, group ff: clear_preset_var1 is the value where clear and preset are both 1; clear gives 0 and preset 1.
const CAPTURED: &[Captured] = &[
    Captured(true, false, false, false, false, true),
    Captured(true, false, false, true, false, false),
    Captured(false, false, false, true, true, true),
    Captured(true, true, false, false, true, false),
    Captured(false, false, true, false, false, true),
    Captured(true, true, true, false, false, false),
    Captured(false, true, true, false, true, true),
];

fn capture_of(alloc: Global, row: &Captured) -> Result<bool, AllocError> {
    let func = toggle_capture(alloc, row.4)?;
    let mut args = Args::of(row.3);
    args.set(0, row.0);
    args.set(1, row.1);
    args.set(2, row.2);
    Ok(bool::apply(&func, &args))
}

#[test]
fn clear_and_preset_come_before_the_next_state(rt: HostRuntime) -> Result<(), AllocError> {
    for (place, row) in CAPTURED.iter().enumerate() {
        let found = capture_of(rt.alloc(), row)?;
        assert_eq!(rt; found, row.5, "row {place}");
    }
    Ok(())
}
