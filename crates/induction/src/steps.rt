//! The step queries of all clauses that are left, one after another.
ghost use Rattle.std.specs.Prelude.{◌≤◌, All, IfOk};
ghost use Rattle.net_model.specs.Netlist.{IsSound};
ghost use Rattle.net_model.specs.Fits.{NamesRegs};
ghost use Rattle.induction.specs.Steps.{IsRightRound};

use net_model::{Cycle, InvClause, Phase};
use proof_log::Derivation;
use query_asks::{Asked, Prepared, Probe, ask_clause};
use sdcv_base::Seq;
use std::alloc::{AllocError, Global};

/// How a round of step queries ends.
#[derive(Drop)]
pub(crate) enum Round {
    /// No query has an answer: a derivation for each clause.
    Refuted(Seq<Derivation>),
    /// The stretch answers the query of the clause at the place.
    Broken { place: usize, stretch: Seq<Cycle> },
    /// The query of the clause at the place spends the budget.
    Spent { place: usize, log: Derivation },
}

/// Asks the step query of each clause against all of them, until one is not refuted.
pub(crate) fn ask_steps(
    alloc: Global,
    design: &Prepared,
    clauses: &Seq<InvClause>,
    depth: usize,
    budget: u64,
) -> Result<Round, AllocError>
    requires sound { IsSound design.now }
    requires names { All (NamesRegs design.now) clauses.now }
    requires few { depth ≤ 64 }
    ensures { IfOk result (IsRightRound design.now clauses.now depth budget) }
{
    let probe = Probe {
        phase: Phase::Step,
        depth,
        budget,
    };
    let mut steps = Seq::new(alloc);
    for place in 0..clauses.len() {
        match ask_clause(alloc, design, clauses.as_slice(), place, probe)? {
            Asked::Refuted(step) => steps.push(step)?,
            Asked::Answered(found) => {
                let stretch = found.run(alloc, design)?;
                return Ok(Round::Broken { place, stretch });
            }
            Asked::Spent(log) => return Ok(Round::Spent { place, log }),
        }
    }
    Ok(Round::Refuted(steps))
}
