//! Clauses whose base queries are refuted, and those that are left out on the way.
ghost use Rattle.std.specs.Prelude.{◌≡◌, ◌≤◌, ◌↔◌, All, IfOk, OnOk, IsTrue};
ghost use Rattle.net_model.specs.Netlist.{IsSound};
ghost use Rattle.net_model.specs.Cycles.{IsRun};
ghost use Rattle.net_model.specs.Fits.{NamesRegs};
ghost use Rattle.verdicts.specs.Inductive.{StandOnce};
ghost use Rattle.induction.specs.Pools.{base_entry, IsTried, IsPool, IsEmptyPool};
ghost use Rattle.induction.specs.Bases.{FailsInSome};

use crate::bases::{Based, ask_bases, fails_live};
use crate::members::{Member, copy_of};
use net_model::{Cycle, InvClause, Phase};
use proof_log::Derivation;
use query_asks::Prepared;
use sdcv_base::Seq;
use std::alloc::{AllocError, Global};
use verdicts::InvSpent;

/// The clauses that are left, with their base derivations; the entries of those whose query spent its budget; and the runs
/// from reset in which others failed.
#[derive(Drop)]
pub(crate) struct Pool {
    pub members: Seq<Member>,
    pub spent: Seq<InvSpent>,
    pub runs: Seq<Seq<Cycle>>,
}

impl Pool {
    /// The candidates that hold in the first live cycles of every run, as many as the depth.
    pub fn of(
        alloc: Global,
        design: &Prepared,
        candidates: &Seq<InvClause>,
        depth: usize,
        budget: u64,
    ) -> Result<Pool, AllocError>
        requires sound { IsSound design.now }
        requires names { All (NamesRegs design.now) candidates.now }
        requires once { StandOnce candidates.now }
        requires few { depth ≤ 64 }
        ensures { IfOk result (IsPool design.now depth budget candidates.now) }
    {
        let mut pool = Pool::empty(alloc);
        for place in 0..candidates.len() {
            pool.add(alloc, design, candidates.item(place), depth, budget)?;
        }
        Ok(pool)
    }

    fn empty(alloc: Global) -> Pool
        ensures { IsEmptyPool result }
    {
        Pool {
            members: Seq::new(alloc),
            spent: Seq::new(alloc),
            runs: Seq::new(alloc),
        }
    }

    // Adds a clause, unless it fails in a known run or one of its base queries is not refuted.
    fn add(
        &mut self,
        alloc: Global,
        design: &Prepared,
        clause: &InvClause,
        depth: usize,
        budget: u64,
    ) -> Result<(), AllocError>
        requires sound { IsSound design.now }
        requires name { NamesRegs design.now clause.now }
        requires few { depth ≤ 64 }
        requires runs { All (IsRun design.now) self.old.runs }
        ensures tried { OnOk result (IsTried design.now depth budget clause.now self.old self.new) }
    {
        if self.fails(design, clause) {
            return Ok(());
        }
        match ask_bases(alloc, design, clause, depth, budget)? {
            Based::Refuted(base) => {
                let clause = copy_of(alloc, clause)?;
                self.members.push(Member { clause, base })?;
            }
            Based::Failing(run) => self.runs.push(run)?,
            Based::Spent { offset, log } => {
                let entry = base_entry(alloc, clause, offset, log)?;
                self.spent.push(entry)?;
            }
        }
        Ok(())
    }

    // Whether the clause fails in a live cycle of a known run.
    fn fails(&self, design: &Prepared, clause: &InvClause) -> bool
        ensures { IsTrue result ↔ FailsInSome design.now.reset_len self.now.runs clause.now }
    {
        let live = design.bare().reset_len;
        for k in 0..self.runs.len() {
            if fails_live(self.runs.item(k), live, clause) {
                return true;
            }
        }
        false
    }
}

/// The entry of a clause whose base query at an offset spends the budget.
fn base_entry(
    alloc: Global,
    clause: &InvClause,
    offset: usize,
    log: Derivation,
) -> Result<InvSpent, AllocError>
    ensures { IfOk result (λ e. e ≡ base_entry clause.now offset log) }
{
    let against = Seq::one(alloc, copy_of(alloc, clause)?)?;
    let clause = copy_of(alloc, clause)?;
    Ok(InvSpent {
        clause,
        phase: Phase::Base,
        offset,
        against,
        place: 0,
        log,
    })
}
