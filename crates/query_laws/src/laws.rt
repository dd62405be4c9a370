//! Laws of queries. Each is the contract of a call that does nothing, for callers that cite it.
ghost use Rattle.std.specs.Prelude.{◌≡◌, true, All};
ghost use Rattle.net_model.specs.Netlist.{IsSound};
ghost use Rattle.net_model.specs.Fits.{Fits, NamesRegs};
ghost use Rattle.net_model.specs.Queries.{claim_query, clause_query};
ghost use Rattle.query_model.specs.Laws.{ModelsAnswer, AnswersHaveModels, NumberedModelsAnswer, AnswersHaveNumberedModels};
ghost use Rattle.query_model.specs.Laws.{ModelsHaveRails, NumberedHaveRails, HasOneProblem};
ghost use Rattle.query_model.specs.declared.keys.Coding.{Coding};

use net_model::{Claim, Design, InvClause, Phase};

/// Where a claim is asked about, the formula's models are exactly the answers: runs from reset, or stretches, that the
/// claim is violated in at the depth, and in a stretch at no offset below. A model agrees with the answer that it gives,
/// and so does one that an answer gives, on each needed net and register bit; and a query has one formula.
///
/// So a formula without a model says that there is no such run. It holds for plain claims and where hazards count, for
/// every kind and any through sets, and for both codings.
///
/// Where hazards count, each needed key of a net in a layer, and of the late capture, says in every model what the ternary
/// value with the start unknown has: rail 0 that it may be 1, and rail 1 that it may be 0.
pub fn claim_laws(design: &Design, claim: &Claim, phase: Phase, depth: usize, inv: &[InvClause])
    requires sound { IsSound design.now }
    requires fits { Fits design.now claim.now }
    requires names { All (NamesRegs design.now) inv.now }
    ensures models { (coding : Coding) → ModelsAnswer coding (claim_query design.now claim.now phase depth inv.now) }
    ensures answers { (coding : Coding) → AnswersHaveModels coding (claim_query design.now claim.now phase depth inv.now) }
    ensures numbered_models { (coding : Coding) → NumberedModelsAnswer coding (claim_query design.now claim.now phase depth inv.now) }
    ensures numbered_answers { (coding : Coding) → AnswersHaveNumberedModels coding (claim_query design.now claim.now phase depth inv.now) }
    ensures one_problem { (coding : Coding) → HasOneProblem coding (claim_query design.now claim.now phase depth inv.now) }
    ensures rails { claim.now.hazard ≡ true → (coding : Coding) → ModelsHaveRails coding claim.now (claim_query design.now claim.now phase depth inv.now) }
    ensures numbered_rails { claim.now.hazard ≡ true → (c : Coding) → NumberedHaveRails c claim.now (claim_query design.now claim.now phase depth inv.now) }
{}

/// The same where it is asked whether a clause over register bits fails in the last cycle.
pub fn clause_laws(
    design: &Design,
    inv: &[InvClause],
    clause: &InvClause,
    phase: Phase,
    depth: usize,
)
    requires sound { IsSound design.now }
    requires name { NamesRegs design.now clause.now }
    requires names { All (NamesRegs design.now) inv.now }
    ensures models { (coding : Coding) → ModelsAnswer coding (clause_query design.now inv.now clause.now phase depth) }
    ensures answers { (coding : Coding) → AnswersHaveModels coding (clause_query design.now inv.now clause.now phase depth) }
    ensures numbered_models { (coding : Coding) → NumberedModelsAnswer coding (clause_query design.now inv.now clause.now phase depth) }
    ensures numbered_answers { (coding : Coding) → AnswersHaveNumberedModels coding (clause_query design.now inv.now clause.now phase depth) }
    ensures one_problem { (coding : Coding) → HasOneProblem coding (clause_query design.now inv.now clause.now phase depth) }
{}
