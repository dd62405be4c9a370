//! Clock gates by the numbers of the design's nets.
ghost use Rattle.std.specs.Prelude.{◌≡◌, ◌-◌, ◌<◌, IfOk, map, zero};
ghost use Rattle.net_model.specs.Form.{OrForm};
ghost use Rattle.link_defs.specs.Parts.{folded};
ghost use Rattle.link_defs.specs.GatedDesigns.{any_of};
ghost use Rattle.net_link.specs.Rows.{number_in, clock_gate};

use crate::gate_nets::GateNets;
use crate::rows::{number_in, place_above};
use icg_rewrite::ClockGate;
use net_model::Func;
use sdcv_base::Seq;
use std::alloc::{AllocError, Global};

/// The function that is 1 where the first place is, or one of so many further ones.
fn any_more(alloc: Global, more: usize) -> Result<Func, AllocError>
    ensures { IfOk result (λ func. func ≡ folded OrForm more) }
{
    let mut func = Func::pin(0);
    for k in 0..more {
        func = Func::or(alloc, func, Func::pin(k + 1))?;
    }
    Ok(func)
}

/// The function that is 1 where one of the first so many places is.
fn any_of(alloc: Global, count: usize) -> Result<Func, AllocError>
    ensures { IfOk result (λ func. func ≡ any_of count) }
{
    if count == 0 {
        return Ok(Func::zero());
    }
    any_more(alloc, count - 1)
}

/// The numbers of nets.
fn numbers_of(
    alloc: Global,
    numbers: &Seq<usize>,
    nets: &Seq<usize>,
) -> Result<Seq<usize>, AllocError>
    ensures { IfOk result (λ list. list ≡ map (number_in numbers.now) nets.now) }
{
    let mut list = Seq::new(alloc);
    for net in nets.as_slice() {
        list.push(number_in(numbers, *net))?;
    }
    Ok(list)
}

/// A clock gate, which passes where one of its enables is 1 and the one above it passes.
fn clock_gate(
    alloc: Global,
    numbers: &Seq<usize>,
    above: &Seq<Option<usize>>,
    row: &Seq<usize>,
    gate: &GateNets,
) -> Result<ClockGate, AllocError>
    ensures { IfOk result (λ made. made ≡ clock_gate numbers.now above.now row.now gate.now) }
{
    let func = any_of(alloc, gate.enables.len())?;
    let ins = numbers_of(alloc, numbers, &gate.enables)?;
    let parent = place_above(above, row, gate.clock);
    Ok(ClockGate { func, ins, parent })
}

/// The clock gates in their order, by the numbers of the design's nets.
pub(crate) fn clock_gates(
    alloc: Global,
    numbers: &Seq<usize>,
    above: &Seq<Option<usize>>,
    row: &Seq<usize>,
    gates: &Seq<GateNets>,
) -> Result<Seq<ClockGate>, AllocError>
    ensures { IfOk result (λ list. list ≡ map (clock_gate numbers.now above.now row.now) gates.now) }
{
    let mut list = Seq::new(alloc);
    for gate in gates.as_slice() {
        list.push(clock_gate(alloc, numbers, above, row, gate)?)?;
    }
    Ok(list)
}
