//! Clauses over register bits, as clauses over keys.
ghost use Rattle.std.specs.Prelude.{◌≡◌, ◌<◌, ◌++◌, length, flat_map, All, IfOk, OnOk};
ghost use Rattle.net_model.specs.Netlist.{IsSound};
ghost use Rattle.query_model.specs.Keys.{below};
ghost use Rattle.net_model.specs.Fits.{NamesRegs};
ghost use Rattle.query_model.specs.Formula as formula;
ghost use Rattle.query_model.specs.Formula.{kept_in};

use crate::gathered::bit_lit;
use net_model::{Design, InvClause, StateLit};
use query_model::KeyLit;
use sdcv_base::Seq;
use std::alloc::{AllocError, Global};

/// The literal of a register's bit in a cycle, true where it has the value.
fn state_lit(design: &Design, cycle: usize, state: StateLit) -> KeyLit
    requires sound { IsSound design.now }
    requires reg { state.reg < length design.now.regs }
    ensures { result ≡ formula.state_lit design.now cycle state }
{
    KeyLit {
        key: bit_lit(design, cycle, state.reg).key,
        positive: state.value,
    }
}

/// A clause over register bits, in a cycle.
pub fn clause_in(
    alloc: Global,
    design: &Design,
    clause: &InvClause,
    cycle: usize,
) -> Result<Seq<KeyLit>, AllocError>
    requires sound { IsSound design.now }
    requires names { NamesRegs design.now clause.now }
    ensures { IfOk result (λ lits. lits ≡ formula.clause_in design.now clause.now cycle) }
{
    let mut lits = Seq::new(alloc);
    for state in clause.lits.as_slice() {
        lits.push(state_lit(design, cycle, *state))?;
    }
    Ok(lits)
}

/// The kept clauses, in a cycle.
fn push_kept_in(
    alloc: Global,
    asked: &mut Seq<Seq<KeyLit>>,
    design: &Design,
    inv: &[InvClause],
    cycle: usize,
) -> Result<(), AllocError>
    requires sound { IsSound design.now }
    requires names { All (NamesRegs design.now) inv.now }
    ensures { OnOk result (asked.new ≡ asked.old ++ kept_in design.now inv.now cycle) }
{
    for clause in inv {
        asked.push(clause_in(alloc, design, clause, cycle)?)?;
    }
    Ok(())
}

/// The kept clauses, in the cycles below a limit.
pub fn kept_clauses(
    alloc: Global,
    design: &Design,
    inv: &[InvClause],
    kept_below: usize,
) -> Result<Seq<Seq<KeyLit>>, AllocError>
    requires sound { IsSound design.now }
    requires names { All (NamesRegs design.now) inv.now }
    ensures { IfOk result (λ asked. asked ≡ flat_map (kept_in design.now inv.now) (below kept_below)) }
{
    let mut asked = Seq::new(alloc);
    for cycle in 0..kept_below {
        push_kept_in(alloc, &mut asked, design, inv, cycle)?;
    }
    Ok(asked)
}
