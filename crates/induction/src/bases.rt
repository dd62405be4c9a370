//! The base queries of one clause.
ghost use Rattle.std.specs.Prelude.{◌≤◌, ◌↔◌, IfOk, IsTrue};
ghost use Rattle.net_model.specs.Netlist.{IsSound};
ghost use Rattle.net_model.specs.Fits.{NamesRegs};
ghost use Rattle.induction.specs.Bases.{IsRightBase, FailsLive};

use crate::members::{copy_of, holds_in};
use net_model::{Cycle, InvClause, Phase};
use proof_log::Derivation;
use query_asks::{Asked, Prepared, Probe, ask_clause};
use sdcv_base::Seq;
use std::alloc::{AllocError, Global};

/// How the base queries of a clause end.
#[derive(Drop)]
pub(crate) enum Based {
    /// None has an answer: a derivation for each offset.
    Refuted(Seq<Derivation>),
    /// The clause fails in a live cycle of this run from reset.
    Failing(Seq<Cycle>),
    /// The query of the offset spends the budget.
    Spent { offset: usize, log: Derivation },
}

/// Asks the base queries of a clause at the offsets below a depth, until one is not refuted.
pub(crate) fn ask_bases(
    alloc: Global,
    design: &Prepared,
    clause: &InvClause,
    depth: usize,
    budget: u64,
) -> Result<Based, AllocError>
    requires sound { IsSound design.now }
    requires name { NamesRegs design.now clause.now }
    requires few { depth ≤ 64 }
    ensures { IfOk result (IsRightBase design.now clause.now depth budget) }
{
    let one = Seq::one(alloc, copy_of(alloc, clause)?)?;
    let mut base = Seq::new(alloc);
    for offset in 0..depth {
        let probe = Probe {
            phase: Phase::Base,
            depth: offset,
            budget,
        };
        match ask_clause(alloc, design, one.as_slice(), 0, probe)? {
            Asked::Refuted(derivation) => base.push(derivation)?,
            Asked::Answered(found) => {
                let run = found.run(alloc, design)?;
                return Ok(Based::Failing(run));
            }
            Asked::Spent(log) => return Ok(Based::Spent { offset, log }),
        }
    }
    Ok(Based::Refuted(base))
}

/// Whether a clause fails in some live cycle of a run, where cycles are live from number `live` on.
pub(crate) fn fails_live(run: &Seq<Cycle>, live: usize, clause: &InvClause) -> bool
    ensures { IsTrue result ↔ FailsLive live run.now clause.now }
{
    for t in live..run.len() {
        if !holds_in(run.item(t), clause) {
            return true;
        }
    }
    false
}
