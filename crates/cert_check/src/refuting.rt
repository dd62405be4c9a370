//! One derivation against the formula of its query.
ghost use Rattle.std.specs.Prelude.{◌≡◌, ◌≢◌, ◌<◌, ◌≤◌, All, IsOk, IfErr, Some, length, slice_get};
ghost use Rattle.net_model.specs.Netlist.{IsSound};
ghost use Rattle.net_model.specs.Fits.{Fits};
ghost use Rattle.net_model.specs.Queries.{claim_query, clause_query};
ghost use Rattle.net_model.specs.declared.invariants.InvClause.{InvClause as Clause};
ghost use Rattle.net_model.specs.Fits.{NamesRegs};
ghost use Rattle.verdicts.specs.Logs.{RefutesQuery};
ghost use Rattle.rup_check.specs.declared.faults.CheckFault.TheVariants.{Memory};
ghost use Rattle.cert_defs.specs.Refused.{HasFault};

use cnf_encode::{Prepared, formula, inv_formula};
use net_model::{Claim, InvClause, Phase};
use proof_log::Derivation;
use rup_check::CheckFault;
use std::alloc::Global;

/// Which query a derivation is told for.
#[derive(Debug, Clone, Copy, PartialEq, Eq)]
pub(crate) struct Asked {
    pub phase: Phase,
    pub depth: usize,
}

/// Whether the derivation refutes the query of a claim.
pub(crate) fn refute_claim(
    alloc: Global,
    design: &Prepared,
    kept: &[InvClause],
    claim: &Claim,
    asked: Asked,
    derivation: &Derivation,
) -> Result<(), CheckFault>
    requires sound { IsSound design.now.design }
    requires fits { Fits design.now.design claim.now }
    requires names { All (NamesRegs design.now.design) kept.now }
    requires few { asked.depth ≤ 64 }
    ensures refutes { IsOk result → RefutesQuery design.now.coding (claim_query design.now.design claim.now asked.phase asked.depth kept.now) derivation.now }
    ensures fault { IfErr result (λ e. e ≢ Memory
        → HasFault design.now.coding (claim_query design.now.design claim.now asked.phase asked.depth kept.now) derivation.now e) }
{
    let problem = formula(alloc, design, claim, asked.phase, asked.depth, kept)?;
    rup_check::check(alloc, &problem.formula, derivation)
}

/// Whether the derivation refutes the query of the clause at a place.
pub(crate) fn refute_clause(
    alloc: Global,
    design: &Prepared,
    kept: &[InvClause],
    place: usize,
    asked: Asked,
    derivation: &Derivation,
) -> Result<(), CheckFault>
    requires sound { IsSound design.now.design }
    requires names { All (NamesRegs design.now.design) kept.now }
    requires place { place < length kept.now }
    requires few { asked.depth ≤ 64 }
    ensures refutes { IsOk result → (clause : Clause) → slice_get kept.now place ≡ Some clause
        → RefutesQuery design.now.coding (clause_query design.now.design kept.now clause asked.phase asked.depth) derivation.now }
    ensures fault { IfErr result (λ e. e ≢ Memory → (clause : Clause) → slice_get kept.now place ≡ Some clause
        → HasFault design.now.coding (clause_query design.now.design kept.now clause asked.phase asked.depth) derivation.now e) }
{
    let problem = inv_formula(alloc, design, kept, place, asked.phase, asked.depth)?;
    rup_check::check(alloc, &problem.formula, derivation)
}
