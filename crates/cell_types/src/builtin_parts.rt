//! Parts of the built-in cells: functions of input places, and cells of the two shapes.
ghost use Rattle.std.specs.Prelude.{◌≡◌, ◌++◌, ◌∷◌, [], IfOk, OnOk, codes, false};
ghost use Rattle.net_model.specs.Form.{PinForm, NotForm, AndForm, OrForm};
ghost use Rattle.cell_types.specs.declared.libraries.CellKind.TheVariants as kind;
ghost use Rattle.cell_types.specs.Builtin.{letters, comb_cell, clocked, choice, p0, p1, p2};

use crate::{Cell, CellKind, CombOut, Flop, FlopOut};
use net_model::Func;
use sdcv_base::{Name, Seq};
use std::alloc::{AllocError, Global};

/// The and of the first two places.
pub(crate) fn and2(alloc: Global) -> Result<Func, AllocError>
    ensures { IfOk result (λ f. f ≡ AndForm p0 p1) }
{
    Func::and(alloc, Func::pin(0), Func::pin(1))
}

/// The and of the first three places.
pub(crate) fn and3(alloc: Global) -> Result<Func, AllocError>
    ensures { IfOk result (λ f. f ≡ AndForm (AndForm p0 p1) p2) }
{
    Func::and(alloc, and2(alloc)?, Func::pin(2))
}

/// The or of the first two places.
pub(crate) fn or2(alloc: Global) -> Result<Func, AllocError>
    ensures { IfOk result (λ f. f ≡ OrForm p0 p1) }
{
    Func::or(alloc, Func::pin(0), Func::pin(1))
}

/// The or of the first three places.
pub(crate) fn or3(alloc: Global) -> Result<Func, AllocError>
    ensures { IfOk result (λ f. f ≡ OrForm (OrForm p0 p1) p2) }
{
    Func::or(alloc, or2(alloc)?, Func::pin(2))
}

/// Where the place `by` is 1, the place `x`, and else the place `y`.
pub(crate) fn choose(alloc: Global, by: usize, x: usize, y: usize) -> Result<Func, AllocError>
    ensures { IfOk result (λ f. f ≡ choice by x y) }
{
    let chosen = Func::and(alloc, Func::pin(x), Func::pin(by))?;
    let other = and_not(alloc, y, by)?;
    Func::or(alloc, chosen, other)
}

/// The place `y` where the place `by` is 0, and else 0.
fn and_not(alloc: Global, y: usize, by: usize) -> Result<Func, AllocError>
    ensures { IfOk result (λ f. f ≡ AndForm (PinForm y) (NotForm (PinForm by))) }
{
    Func::and(alloc, Func::pin(y), Func::not(alloc, Func::pin(by))?)
}

/// A name for each letter.
pub(crate) fn named(alloc: Global, text: &str) -> Result<Seq<Name>, AllocError>
    ensures { IfOk result (λ names. names ≡ letters text.now) }
{
    let mut names = Seq::new(alloc);
    for letter in text.as_bytes() {
        push_name(alloc, &mut names, &[*letter])?;
    }
    Ok(names)
}

/// Adds a name of this text.
pub(crate) fn push_name(alloc: Global, names: &mut Seq<Name>, text: &[u8]) -> Result<(), AllocError>
    ensures { OnOk result (names.new ≡ names.old ++ text.now ∷ []) }
{
    names.push(Name::new(alloc, text)?)?;
    Ok(())
}

/// A cell without power pins.
pub(crate) fn cell(
    alloc: Global,
    name: &str,
    inputs: Seq<Name>,
    kind: CellKind,
) -> Result<Cell, AllocError>
    ensures { IfOk result (λ cell. cell ≡ record { name = name.now; inputs = inputs; power = []; kind = kind }) }
{
    let name = Name::new(alloc, name.as_bytes())?;
    Ok(Cell {
        name,
        inputs,
        power: Seq::new(alloc),
        kind,
    })
}

/// The output Y.
fn output(alloc: Global, func: Func) -> Result<Seq<CombOut>, AllocError>
    ensures { IfOk result (λ outs. outs ≡ record { name = codes "Y"; func = func } ∷ []) }
{
    let name = Name::new(alloc, "Y".as_bytes())?;
    Seq::one(alloc, CombOut { name, func })
}

/// A combinational cell whose output Y is this function of its inputs, each named by a letter.
pub(crate) fn comb(alloc: Global, name: &str, inputs: &str, func: Func) -> Result<Cell, AllocError>
    ensures { IfOk result (λ cell. cell ≡ comb_cell name.now inputs.now func) }
{
    let outs = output(alloc, func)?;
    let inputs = named(alloc, inputs)?;
    cell(alloc, name, inputs, CellKind::Comb(outs))
}

/// The output Q, which is the state.
fn state_output(alloc: Global) -> Result<Seq<FlopOut>, AllocError>
    ensures { IfOk result (λ outs. outs ≡ record { name = codes "Q"; inverted = false } ∷ []) }
{
    let name = Name::new(alloc, "Q".as_bytes())?;
    let inverted = false;
    Seq::one(alloc, FlopOut { name, inverted })
}

/// A flop on the clock pin CK, whose output Q is the state.
pub(crate) fn on_clock(
    alloc: Global,
    next: Func,
    clear: Option<Func>,
    preset: Option<Func>,
) -> Result<Flop, AllocError>
    ensures { IfOk result (λ flop. flop ≡ clocked next clear preset) }
{
    let clock = Name::new(alloc, "CK".as_bytes())?;
    let outs = state_output(alloc)?;
    Ok(Flop {
        clock,
        next,
        clear,
        preset,
        both: false,
        outs,
    })
}

/// A cell that is this flop.
pub(crate) fn flop(
    alloc: Global,
    name: &str,
    inputs: Seq<Name>,
    flop: Flop,
) -> Result<Cell, AllocError>
    ensures { IfOk result (λ cell. cell ≡ record { name = name.now; inputs = inputs; power = []; kind = kind.Flop flop }) }
{
    cell(alloc, name, inputs, CellKind::Flop(flop))
}
