//! The settled values of a cycle's nets in three values.
ghost use Rattle.std.specs.Prelude.{◌≡◌, ◌<◌, ℕ, IfOk, length, Contains, slice_index};
ghost use Rattle.net_model.specs.Netlist.{IsSound};
ghost use Rattle.net_model.specs.Layers.{row_at, net_at};
ghost use Rattle.net_model.specs.RowChanges.{ChangesRow};
ghost use Rattle.net_model.specs.declared.terns.Tern.TheVariants.{Zero};
ghost use Rattle.net_model.specs.declared.claims.Start.TheVariants.{Reg as RegStart};
ghost use Rattle.firm_runs.specs.Cycles3.{tern_at, ShowsValue, IsSettled3};
ghost use Rattle.firm_runs.specs.Cycles3 as cycles;

use crate::cycles::Cycle3;
use crate::late_starts::{put_late_input, put_late_reg};
use net_model::{Design, Tern, settle_gates};
use sdcv_base::Seq;
use std::alloc::{AllocError, Global};

/// The other bit, or unknown.
fn complement(value: Tern) -> Tern
    ensures { result ≡ cycles.complement value }
{
    match value {
        Tern::Zero => Tern::One,
        Tern::One => Tern::Zero,
        Tern::Unknown => Tern::Unknown,
    }
}

/// Writes each input's value to its net, in the first row.
fn put_inputs(design: &Design, ins: &Seq<Tern>, rows: &mut Seq<Seq<Tern>>)
    requires sound { IsSound design.now }
    requires ins { length ins.now ≡ length design.now.inputs }
    requires rows { 0 < length rows.old }
    requires len { length (row_at rows.old 0) ≡ design.now.nets }
    ensures kept { ChangesRow 0 rows.old rows.new }
    ensures shown { (i : ℕ) → i < length design.now.inputs → net_at Zero rows.new 0 (slice_index design.now.inputs i) ≡ tern_at ins.now i }
{
    for i in 0..design.inputs.len() {
        put_late_input(design, i, ins.at(i), rows);
    }
}

/// Writes each register's value, or its complement, to the register's output nets, in the first row.
fn put_regs(design: &Design, bits: &Seq<Tern>, rows: &mut Seq<Seq<Tern>>)
    requires sound { IsSound design.now }
    requires bits { length bits.now ≡ length design.now.regs }
    requires rows { 0 < length rows.old }
    requires len { length (row_at rows.old 0) ≡ design.now.nets }
    ensures kept { ChangesRow 0 rows.old rows.new }
    ensures inputs { (n : ℕ) → Contains design.now.inputs n → net_at Zero rows.new 0 n ≡ net_at Zero rows.old 0 n }
    ensures shown { (r : ℕ) → r < length design.now.regs → ShowsValue design.now (row_at rows.new 0) (RegStart r) (tern_at bits.now r) }
{
    for r in 0..design.regs.len() {
        let value = bits.at(r);
        put_late_reg(design, r, value, complement(value), rows);
    }
}

/// The settled cycle of these register and input values.
pub fn settled3(
    alloc: Global,
    design: &Design,
    bits: Seq<Tern>,
    ins: Seq<Tern>,
) -> Result<Cycle3, AllocError>
    requires sound { IsSound design.now }
    requires bits { length bits ≡ length design.now.regs }
    requires ins { length ins ≡ length design.now.inputs }
    ensures bits { IfOk result (λ c. c.bits ≡ bits) }
    ensures ins { IfOk result (λ c. c.ins ≡ ins) }
    ensures settled { IfOk result (IsSettled3 design.now) }
{
    let row = Seq::filled(alloc, Tern::Zero, design.nets)?;
    let mut rows = Seq::one(alloc, row)?;
    put_inputs(design, &ins, &mut rows);
    put_regs(design, &bits, &mut rows);
    let mut nets = rows.item(0).copy(alloc)?;
    settle_gates(design, &mut nets);
    Ok(Cycle3 { bits, ins, nets })
}
