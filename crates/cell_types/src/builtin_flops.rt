//! The flops among the cells that are known without a file.
ghost use Rattle.std.specs.Prelude.{◌≡◌, ◌++◌, ◌∷◌, [], IfOk, OnOk, codes, Some, None};
ghost use Rattle.cell_types.specs.Builtin.{flop_cells, choosing_flop_cells, flop_cell, letters, choice, p0, p3};
ghost use Rattle.cell_types.specs.declared.libraries.CellKind.TheVariants as kind;

use crate::builtin_parts::{choose, flop, named, on_clock, push_name};
use crate::{Cell, Flop};
use net_model::Func;
use sdcv_base::{Name, Seq};
use std::alloc::{AllocError, Global};

/// Flops whose next state is the pin D.
pub(crate) fn push_flops(alloc: Global, cells: &mut Seq<Cell>) -> Result<(), AllocError>
    ensures { OnOk result (cells.new ≡ cells.old ++ flop_cells) }
{
    push_flop(alloc, cells, "DFF", "D", None, None)?;
    push_flop(alloc, cells, "DFFC", "DC", Some(Func::pin(1)), None)?;
    push_flop(alloc, cells, "DFFP", "DP", None, Some(Func::pin(1)))
}

/// Adds a flop whose next state is its first input.
fn push_flop(
    alloc: Global,
    cells: &mut Seq<Cell>,
    name: &str,
    inputs: &str,
    clear: Option<Func>,
    preset: Option<Func>,
) -> Result<(), AllocError>
    ensures { OnOk result (cells.new ≡ cells.old ++ flop_cell name.now (letters inputs.now) p0 clear preset ∷ []) }
{
    let state = on_clock(alloc, Func::pin(0), clear, preset)?;
    cells.push(lettered(alloc, name, inputs, state)?)?;
    Ok(())
}

/// A cell that is this flop, its inputs each named by a letter.
fn lettered(alloc: Global, name: &str, inputs: &str, state: Flop) -> Result<Cell, AllocError>
    ensures { IfOk result (λ cell. cell ≡ record { name = name.now; inputs = letters inputs.now; power = []; kind = kind.Flop state }) }
{
    let inputs = named(alloc, inputs)?;
    flop(alloc, name, inputs, state)
}

/// Flops that keep their state, or take it from a scan chain.
pub(crate) fn push_choosing_flops(alloc: Global, cells: &mut Seq<Cell>) -> Result<(), AllocError>
    ensures { OnOk result (cells.new ≡ cells.old ++ choosing_flop_cells) }
{
    cells.push(enabled_flop(alloc)?)?;
    cells.push(scan_flop(alloc)?)?;
    Ok(())
}

/// The flop that keeps its state where its enable is 0.
fn enabled_flop(alloc: Global) -> Result<Cell, AllocError>
    ensures { IfOk result (λ cell. cell ≡ flop_cell (codes "DFFE") (letters (codes "DE")) (choice 1 0 2) None None) }
{
    let kept = on_clock(alloc, choose(alloc, 1, 0, 2)?, None, None)?;
    lettered(alloc, "DFFE", "DE", kept)
}

/// The scan flop with a clear.
fn scan_flop(alloc: Global) -> Result<Cell, AllocError>
    ensures { IfOk result (λ cell. cell ≡ flop_cell (codes "SDFFC") (codes "D" ∷ codes "SI" ∷ codes "SE" ∷ codes "C" ∷ []) (choice 2 1 0) (Some p3) None) }
{
    let scanned = on_clock(alloc, choose(alloc, 2, 1, 0)?, Some(Func::pin(3)), None)?;
    let inputs = scan_pins(alloc)?;
    flop(alloc, "SDFFC", inputs, scanned)
}

/// The input pins of a scan flop with a clear.
fn scan_pins(alloc: Global) -> Result<Seq<Name>, AllocError>
    ensures { IfOk result (λ names. names ≡ codes "D" ∷ codes "SI" ∷ codes "SE" ∷ codes "C" ∷ []) }
{
    let mut names = Seq::new(alloc);
    push_name(alloc, &mut names, "D".as_bytes())?;
    push_name(alloc, &mut names, "SI".as_bytes())?;
    push_name(alloc, &mut names, "SE".as_bytes())?;
    push_name(alloc, &mut names, "C".as_bytes())?;
    Ok(names)
}
