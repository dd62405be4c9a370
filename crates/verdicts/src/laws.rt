//! Laws of induction. Each is the contract of a call that does nothing, for callers that cite it.
ghost use Rattle.std.specs.Prelude.{ℕ, ◌<◌, List, ◌++◌, All};
ghost use Rattle.net_model.specs.Netlist.{IsSound};
ghost use Rattle.net_model.specs.Fits.{Fits};
ghost use Rattle.net_model.specs.Judge.{Holds};
ghost use Rattle.net_model.specs.Queries.{IsAnswer, claim_query};
ghost use Rattle.net_model.specs.declared.cycles.Cycle.{Cycle};
ghost use Rattle.net_model.specs.declared.queries.Phase.TheVariants.{Base, Step};
ghost use Rattle.net_model.specs.Fits.{NamesRegs};
ghost use Rattle.verdicts.specs.Offsets.{HoldsAtOffset};
ghost use Rattle.verdicts.specs.Inductive.{AreAlwaysMet, IsInductive};
ghost use Rattle.verdicts.specs.Verdicts.{IsRightProof};
ghost use Rattle.verdicts.specs.Certified.{ProveKept, ProvesPair};

use net_model::{Claim, Design, InvClause};
use query_model::Coding;
use verdict_types::{InvProof, Limits, Proof};

/// Where the base query of a depth has no answer, no run of any length is violated at its offset: a shorter run that is
/// violated there goes on to the query's length.
pub fn holds_at(design: &Design, claim: &Claim, kept: &[InvClause], depth: usize)
    requires sound { IsSound design.now }
    requires none { (run : List Cycle) → ¬ IsAnswer (claim_query design.now claim.now Base depth kept.now) run }
    ensures { HoldsAtOffset design.now claim.now depth }
{}

/// Where no run is violated at the offsets below a depth, and the step query of the depth has no answer, the claim holds
/// in all runs (Sheeran, Singh and Stålmarck, FMCAD 2000).
///
/// The kept clauses hold in every live cycle, so each run that toggles late enough ends with a stretch that the step query
/// asks about.
pub fn holds_by_induction(design: &Design, claim: &Claim, kept: &[InvClause], depth: usize)
    requires sound { IsSound design.now }
    requires met { AreAlwaysMet design.now kept.now }
    requires base { (offset : ℕ) → offset < depth → HoldsAtOffset design.now claim.now offset }
    requires step { (stretch : List Cycle) → ¬ IsAnswer (claim_query design.now claim.now Step depth kept.now) stretch }
    ensures { Holds design.now claim.now }
{}

/// The clauses of an inductive set hold in every live cycle of every run from reset.
pub fn always_met(design: &Design, depth: usize, set: &[InvClause])
    requires inductive_ { IsInductive design.now depth set.now }
    ensures { AreAlwaysMet design.now set.now }
{}

/// The union of two inductive sets is inductive, so there is a greatest one.
pub fn union_inductive(design: &Design, depth: usize, one: &[InvClause], other: &[InvClause])
    requires one { IsInductive design.now depth one.now }
    requires other { IsInductive design.now depth other.now }
    ensures { IsInductive design.now depth (one.now ++ other.now) }
{}

/// A claim that is rightly justified holds in every run from reset, where the kept clauses hold in every live cycle.
pub fn justified(design: &Design, claim: &Claim, kept: &[InvClause], limits: Limits, proof: &Proof)
    requires sound { IsSound design.now }
    requires met { AreAlwaysMet design.now kept.now }
    requires right { IsRightProof design.now claim.now kept.now limits proof.now }
    ensures { Holds design.now claim.now }
{}

/// Where derivations refute the queries of each kept clause, at one depth, the kept clauses hold in every live cycle.
///
/// It asks nothing of how they were found, and serves formulas in either coding.
pub fn kept_certified(
    coding: Coding,
    design: &Design,
    depth: usize,
    kept: &[InvClause],
    proofs: &[InvProof],
)
    requires sound { IsSound design.now }
    requires names { All (NamesRegs design.now) kept.now }
    requires proved { ProveKept coding design.now kept.now depth proofs.now }
    ensures { AreAlwaysMet design.now kept.now }
{}

/// Where the kept clauses hold in every live cycle, and derivations refute the queries of a claim, the claim holds in every
/// run from reset.
///
/// It asks nothing of how they were found, and serves formulas in either coding.
pub fn claim_certified(
    coding: Coding,
    design: &Design,
    claim: &Claim,
    kept: &[InvClause],
    proof: &Proof,
)
    requires sound { IsSound design.now }
    requires fits { Fits design.now claim.now }
    requires names { All (NamesRegs design.now) kept.now }
    requires met { AreAlwaysMet design.now kept.now }
    requires proved { ProvesPair coding design.now kept.now claim.now proof.now }
    ensures { Holds design.now claim.now }
{}
