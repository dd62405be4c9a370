//! The cells that are known without a file.
ghost use Rattle.std.specs.Prelude.{◌≡◌, ◌++◌, ◌∷◌, [], IfOk, OnOk};
ghost use Rattle.net_model.specs.Form.{NotForm, AndForm, OrForm, XorForm};
ghost use Rattle.cell_types.specs.Builtin.{plain_cells, and_cells, or_cells, complement_cells, xor_cells, mixed_cells, builtin_cells};
ghost use Rattle.cell_types.specs.Builtin.{comb_cell, p0, p1, p2};
ghost use Rattle.cell_types.specs.Libraries.{IsLawful};

use crate::builtin_flops::{push_choosing_flops, push_flops};
use crate::builtin_gates::push_gates;
use crate::builtin_parts::{and2, and3, choose, comb, or2, or3};
use crate::{Cell, Library};
use net_model::Func;
use sdcv_base::Seq;
use std::alloc::{AllocError, Global};

/// TIE0, TIE1, BUF, INV; AND2 to AND4, OR2 to OR4; NAND2, NAND3, NOR2, NOR3; XOR2, XNOR2, MUX2, AOI21, OAI21;
/// DFF, DFFC (clear), DFFP (preset), DFFE (enable) and SDFFC (scan, clear); ICG, a clock gate.
pub fn builtin(alloc: Global) -> Result<Library, AllocError>
    ensures table { IfOk result (λ library. library.cells ≡ builtin_cells) }
    ensures lawful { IfOk result (λ library. IsLawful library.cells) }
{
    let cells = table(alloc)?;
    Ok(Library { cells })
}

/// The cells of the table, in its order.
fn table(alloc: Global) -> Result<Seq<Cell>, AllocError>
    ensures { IfOk result (λ cells. cells ≡ builtin_cells) }
{
    let mut cells = Seq::new(alloc);
    push_plain(alloc, &mut cells)?;
    push_ands(alloc, &mut cells)?;
    push_ors(alloc, &mut cells)?;
    push_complements(alloc, &mut cells)?;
    push_xors(alloc, &mut cells)?;
    push_mixed(alloc, &mut cells)?;
    push_flops(alloc, &mut cells)?;
    push_choosing_flops(alloc, &mut cells)?;
    push_gates(alloc, &mut cells)?;
    Ok(cells)
}

/// Constants, a buffer and an inverter.
fn push_plain(alloc: Global, cells: &mut Seq<Cell>) -> Result<(), AllocError>
    ensures { OnOk result (cells.new ≡ cells.old ++ plain_cells) }
{
    push_comb(alloc, cells, "TIE0", "", Func::zero())?;
    push_comb(alloc, cells, "TIE1", "", Func::one())?;
    push_comb(alloc, cells, "BUF", "A", Func::pin(0))?;
    push_complement(alloc, cells, "INV", "A", Func::pin(0))
}

/// Gates that are an and.
fn push_ands(alloc: Global, cells: &mut Seq<Cell>) -> Result<(), AllocError>
    ensures { OnOk result (cells.new ≡ cells.old ++ and_cells) }
{
    push_comb(alloc, cells, "AND2", "AB", and2(alloc)?)?;
    push_comb(alloc, cells, "AND3", "ABC", and3(alloc)?)?;
    let and4 = Func::and(alloc, and3(alloc)?, Func::pin(3))?;
    push_comb(alloc, cells, "AND4", "ABCD", and4)
}

/// Gates that are an or.
fn push_ors(alloc: Global, cells: &mut Seq<Cell>) -> Result<(), AllocError>
    ensures { OnOk result (cells.new ≡ cells.old ++ or_cells) }
{
    push_comb(alloc, cells, "OR2", "AB", or2(alloc)?)?;
    push_comb(alloc, cells, "OR3", "ABC", or3(alloc)?)?;
    let or4 = Func::or(alloc, or3(alloc)?, Func::pin(3))?;
    push_comb(alloc, cells, "OR4", "ABCD", or4)
}

/// Gates that are the complement of an and or an or.
fn push_complements(alloc: Global, cells: &mut Seq<Cell>) -> Result<(), AllocError>
    ensures { OnOk result (cells.new ≡ cells.old ++ complement_cells) }
{
    push_complement(alloc, cells, "NAND2", "AB", and2(alloc)?)?;
    push_complement(alloc, cells, "NAND3", "ABC", and3(alloc)?)?;
    push_complement(alloc, cells, "NOR2", "AB", or2(alloc)?)?;
    push_complement(alloc, cells, "NOR3", "ABC", or3(alloc)?)
}

/// Exclusive or, and its complement.
fn push_xors(alloc: Global, cells: &mut Seq<Cell>) -> Result<(), AllocError>
    ensures { OnOk result (cells.new ≡ cells.old ++ xor_cells) }
{
    push_comb(alloc, cells, "XOR2", "AB", xor2(alloc)?)?;
    push_complement(alloc, cells, "XNOR2", "AB", xor2(alloc)?)
}

/// The exclusive or of the first two places.
fn xor2(alloc: Global) -> Result<Func, AllocError>
    ensures { IfOk result (λ f. f ≡ XorForm p0 p1) }
{
    Func::xor(alloc, Func::pin(0), Func::pin(1))
}

/// Gates of several operators.
fn push_mixed(alloc: Global, cells: &mut Seq<Cell>) -> Result<(), AllocError>
    ensures { OnOk result (cells.new ≡ cells.old ++ mixed_cells) }
{
    push_comb(alloc, cells, "MUX2", "ABS", choose(alloc, 2, 1, 0)?)?;
    push_complement(alloc, cells, "AOI21", "ABC", and_or(alloc)?)?;
    push_complement(alloc, cells, "OAI21", "ABC", or_and(alloc)?)
}

/// The or of the third place and the and of the first two.
fn and_or(alloc: Global) -> Result<Func, AllocError>
    ensures { IfOk result (λ f. f ≡ OrForm (AndForm p0 p1) p2) }
{
    Func::or(alloc, and2(alloc)?, Func::pin(2))
}

/// The and of the third place and the or of the first two.
fn or_and(alloc: Global) -> Result<Func, AllocError>
    ensures { IfOk result (λ f. f ≡ AndForm (OrForm p0 p1) p2) }
{
    Func::and(alloc, or2(alloc)?, Func::pin(2))
}

/// Adds a combinational cell whose output is the complement of this function.
fn push_complement(
    alloc: Global,
    cells: &mut Seq<Cell>,
    name: &str,
    inputs: &str,
    func: Func,
) -> Result<(), AllocError>
    ensures { OnOk result (cells.new ≡ cells.old ++ comb_cell name.now inputs.now (NotForm func) ∷ []) }
{
    push_comb(alloc, cells, name, inputs, Func::not(alloc, func)?)
}

/// Adds a combinational cell whose output is this function.
fn push_comb(
    alloc: Global,
    cells: &mut Seq<Cell>,
    name: &str,
    inputs: &str,
    func: Func,
) -> Result<(), AllocError>
    ensures { OnOk result (cells.new ≡ cells.old ++ comb_cell name.now inputs.now func ∷ []) }
{
    cells.push(comb(alloc, name, inputs, func)?)?;
    Ok(())
}
