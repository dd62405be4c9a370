//! Whether a cycle is known to be bad for a claim, where hazards don't count.
ghost use Rattle.std.specs.Prelude.{◌≡◌, ◌<◌, ◌≤◌, ◌↔◌, ℕ, IsTrue, IfOk, length, All};
ghost use Rattle.net_model.specs.Netlist.{IsSound};
ghost use Rattle.net_model.specs.Fits.{Fits, IsEndIn};
ghost use Rattle.net_model.specs.Layers.{row_at};
ghost use Rattle.firm_runs.specs.Cycles3.{IsSettled3};
ghost use Rattle.firm_runs.specs.Layers3.{capture3_over, IsLateCapture3};
ghost use Rattle.firm_runs.specs.Firm.{AreApart, DiffersLate3, Changes3, IsLateBad3, IsBad3};

use crate::captures::{capture3, cell_capture3};
use crate::cycles::Cycle3;
use crate::late_starts::make_layers3;
use net_model::{Claim, Design, End, Kind, PinRef, Tern, Value, late_reg_args, layer_pin};
use sdcv_base::Seq;
use std::alloc::{AllocError, Global};

/// Whether both values are known and differ.
fn are_apart(x: Tern, y: Tern) -> bool
    ensures { IsTrue result ↔ AreApart x y }
{
    match (x, y) {
        (Tern::Zero, Tern::One) => true,
        (Tern::One, Tern::Zero) => true,
        _ => false,
    }
}

/// Room for so many rows of net values.
fn blank_rows(alloc: Global, design: &Design, count: usize) -> Result<Seq<Seq<Tern>>, AllocError>
    ensures count { IfOk result (λ rows. length rows ≡ count) }
    ensures lens { IfOk result (All (λ row. length row ≡ design.now.nets)) }
{
    let mut rows = Seq::new(alloc);
    for _ in 0..count {
        rows.push(Seq::filled(alloc, Tern::Zero, design.nets)?)?;
    }
    Ok(rows)
}

/// The capture of an end over the last of the layers.
fn capture_last3(
    alloc: Global,
    design: &Design,
    claim: &Claim,
    cycle: &Cycle3,
    rows: &Seq<Seq<Tern>>,
) -> Result<Tern, AllocError>
    requires sound { IsSound design.now }
    requires end { IsEndIn design.now claim.now.end }
    requires bits { length cycle.now.bits ≡ length design.now.regs }
    requires rows { length claim.now.through < length rows.now }
    requires lens { (m : ℕ) → m ≤ length claim.now.through → length (row_at rows.now m) ≡ design.now.nets }
    ensures { IfOk result (λ late. late ≡ capture3_over design.now claim.now.through rows.now claim.now.end cycle.now) }
{
    let sets = &claim.through;
    match &claim.end {
        End::Reg(r) => {
            let reg = design.regs.item(*r);
            let own = cycle.bits.at(*r);
            let args = late_reg_args(sets, rows, *r, reg, own);
            let value = cell_capture3(alloc, reg, &args)?;
            Ok(value)
        }
        End::Output(o) => {
            let net = design.outputs.at(*o);
            Ok(layer_pin(sets, rows, sets.len(), PinRef::OutPort(*o), net))
        }
    }
}

/// What the claim's end captures where its start, in the first layer, shows a stale bit.
fn late_capture3(
    alloc: Global,
    design: &Design,
    claim: &Claim,
    cycle: &Cycle3,
    stale: bool,
) -> Result<Tern, AllocError>
    requires sound { IsSound design.now }
    requires fits { Fits design.now claim.now }
    requires settled { IsSettled3 design.now cycle.now }
    ensures { IfOk result (IsLateCapture3 design.now claim.now cycle.now stale) }
{
    let mut rows = blank_rows(alloc, design, claim.through.len() + 1)?;
    let value = Tern::of_bit(stale);
    let inverted = Tern::of_bit(!stale);
    make_layers3(design, claim, value, inverted, &cycle.nets, &mut rows);
    let late = capture_last3(alloc, design, claim, cycle, &rows)?;
    Ok(late)
}

/// Whether the late capture is known to differ from the capture.
fn differs_late3(
    alloc: Global,
    design: &Design,
    claim: &Claim,
    cycle: &Cycle3,
    stale: bool,
) -> Result<bool, AllocError>
    requires sound { IsSound design.now }
    requires fits { Fits design.now claim.now }
    requires settled { IsSettled3 design.now cycle.now }
    ensures { IfOk result (λ differs. IsTrue differs ↔ DiffersLate3 design.now claim.now cycle.now stale) }
{
    let late = late_capture3(alloc, design, claim, cycle, stale)?;
    let captured = capture3(alloc, design, cycle, &claim.end)?;
    Ok(are_apart(late, captured))
}

/// Whether the capture is known to differ from the capture in the cycle before.
fn changes3(
    alloc: Global,
    design: &Design,
    claim: &Claim,
    before: &Cycle3,
    cycle: &Cycle3,
) -> Result<bool, AllocError>
    requires sound { IsSound design.now }
    requires fits { Fits design.now claim.now }
    requires before { IsSettled3 design.now before.now }
    requires settled { IsSettled3 design.now cycle.now }
    ensures { IfOk result (λ changes. IsTrue changes ↔ Changes3 design.now claim.now before.now cycle.now) }
{
    let captured = capture3(alloc, design, cycle, &claim.end)?;
    let earlier = capture3(alloc, design, before, &claim.end)?;
    Ok(are_apart(captured, earlier))
}

/// Whether a cycle is known to be bad on the late side, given the stale bit.
fn is_late_bad3(
    alloc: Global,
    design: &Design,
    claim: &Claim,
    stale: bool,
    before: &Cycle3,
    cycle: &Cycle3,
) -> Result<bool, AllocError>
    requires sound { IsSound design.now }
    requires fits { Fits design.now claim.now }
    requires before { IsSettled3 design.now before.now }
    requires settled { IsSettled3 design.now cycle.now }
    ensures { IfOk result (λ bad. IsTrue bad ↔ IsLateBad3 claim.now.kind claim.now.through design.now claim.now stale before.now cycle.now) }
{
    match claim.kind {
        Kind::False => Ok(differs_late3(alloc, design, claim, cycle, stale)?),
        Kind::Multi(_) if claim.through.is_empty() => {
            Ok(changes3(alloc, design, claim, before, cycle)?)
        }
        Kind::Multi(_) => {
            let differs = differs_late3(alloc, design, claim, cycle, stale)?;
            let changes = changes3(alloc, design, claim, before, cycle)?;
            Ok(differs && changes)
        }
    }
}

/// Whether a cycle, which comes after another, is known to be bad for the claim, given the stale bit. A claim of the early side
/// judges the cycle before.
pub fn is_bad3(
    alloc: Global,
    design: &Design,
    claim: &Claim,
    stale: bool,
    before: &Cycle3,
    cycle: &Cycle3,
) -> Result<bool, AllocError>
    requires sound { IsSound design.now }
    requires fits { Fits design.now claim.now }
    requires before { IsSettled3 design.now before.now }
    requires settled { IsSettled3 design.now cycle.now }
    ensures { IfOk result (λ bad. IsTrue bad ↔ IsBad3 claim.now.early design.now claim.now stale before.now cycle.now) }
{
    if claim.early {
        Ok(differs_late3(alloc, design, claim, before, !stale)?)
    } else {
        Ok(is_late_bad3(alloc, design, claim, stale, before, cycle)?)
    }
}
