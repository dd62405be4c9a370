//! Clauses by name to clauses over the registers of a design.
ghost use Rattle.std.specs.Prelude.{◌≡◌, ◌<◌, ◌∷◌, [], List, All, length, IfErr, IfOk};
ghost use Rattle.linked_types.specs.declared.names.CellName.{CellName as Cell};
ghost use Rattle.linked_types.specs.Usable.{IsCellOf};
ghost use Rattle.net_model.specs.declared.netlist.Design.{Design};
ghost use Rattle.net_model.specs.declared.invariants.InvClause.{InvClause as Clause};
ghost use Rattle.net_model.specs.Fits.{NamesRegs};
ghost use Rattle.assist_text.specs.Clauses.{IsOnce, IsOneOrMore};
ghost use Rattle.assist_text.specs.Named.{AreLits, AreNamed, AreOnce, IsLit, IsNamed, IsUnknown, IsUnknownIn};
ghost use Rattle.assist_text.specs.Registers.{IsTable};

use crate::registers::RegTable;
use assist_types::{Assist, AssistClause, AssistFault};
use linked_types::Names;
use net_model::{InvClause, StateLit};
use sdcv_base::{Seq, Setting};
use std::alloc::Global;

/// The literal of a setting.
fn literal(
    alloc: Global,
    table: &RegTable,
    line: u64,
    setting: &Setting,
) -> Result<StateLit, AssistFault>
    ensures ok { (cells : List Cell) → IsTable cells table.now → IfOk result (IsLit cells setting.now) }
    ensures err { (cells : List Cell) → IsTable cells table.now → IfErr result (IsUnknownIn cells line (setting.now ∷ [])) }
{
    let Some(reg) = table.reg(&setting.name) else {
        return Err(AssistFault::UnknownRegister(line, setting.name.copy(alloc)?));
    };
    Ok(StateLit {
        reg,
        value: setting.value,
    })
}

/// The literals of settings, in their order.
fn literals(
    alloc: Global,
    table: &RegTable,
    clause: &AssistClause,
) -> Result<Vec<StateLit>, AssistFault>
    ensures ok { (cells : List Cell) → IsTable cells table.now → IfOk result (λ lits. AreLits cells clause.now.lits lits.items) }
    ensures err { (cells : List Cell) → IsTable cells table.now → IfErr result (IsUnknownIn cells clause.now.line clause.now.lits) }
{
    let mut lits = Vec::new(alloc);
    for setting in clause.lits.as_slice() {
        lits.push(literal(alloc, table, clause.line, setting)?)?;
    }
    Ok(lits)
}

/// The clause over registers.
fn named(alloc: Global, table: &RegTable, clause: &AssistClause) -> Result<InvClause, AssistFault>
    requires { IsOnce clause.now.lits }
    ensures ok { (cells : List Cell) → AreOnce cells → IsTable cells table.now → IfOk result (IsNamed cells clause.now) }
    ensures err { (cells : List Cell) → IsTable cells table.now → IfErr result (IsUnknownIn cells clause.now.line clause.now.lits) }
{
    let mut lits = literals(alloc, table, clause)?;
    lits.sort_unstable_by_key(|lit| lit.reg);
    Ok(InvClause {
        lits: Seq::from_vec(lits),
    })
}

/// The clauses over registers.
pub fn assist_clauses(
    alloc: Global,
    names: &Names,
    assist: &Assist,
) -> Result<Seq<InvClause>, AssistFault>
    requires once { AreOnce names.now.cells }
    requires one_or_more { All IsOneOrMore assist.now.clauses }
    ensures named { IfOk result (AreNamed names.now.cells assist.now.clauses) }
    ensures some { IfOk result (All (λ (c : Clause). 0 < length c.lits)) }
    ensures regs { (d : Design) → All (IsCellOf d) names.now.cells → IfOk result (All (NamesRegs d)) }
    ensures err { IfErr result (IsUnknown names.now.cells assist.now.clauses) }
{
    let table = RegTable::new(alloc, names.cells.as_slice())?;
    let mut clauses = Seq::new(alloc);
    for clause in assist.clauses.as_slice() {
        clauses.push(named(alloc, &table, clause)?)?;
    }
    Ok(clauses)
}
