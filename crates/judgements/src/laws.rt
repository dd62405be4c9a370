//! Laws of what is found out. Each is the contract of a call that does nothing, for callers that cite it.
ghost use Rattle.std.specs.Prelude.{◌≡◌, List, [], Some, slice_get};
ghost use Rattle.net_model.specs.Netlist.{IsSound};
ghost use Rattle.net_model.specs.Queries.{IsAnswer, claim_query};
ghost use Rattle.net_model.specs.declared.claims.Claim.{Claim as ClaimRecord};
ghost use Rattle.net_model.specs.declared.cycles.Cycle.{Cycle};
ghost use Rattle.net_model.specs.declared.queries.Phase.TheVariants.{Step};
ghost use Rattle.verdicts.specs.Inductive.{IsInductive};
ghost use Rattle.verdicts.specs.Verdicts.{IsJudged};
ghost use Rattle.verdict_types.specs.declared.outcomes.Verdict.{Verdict as VerdictRecord};
ghost use Rattle.judgements.specs.Judgements.{AreJudged, IsJustifiedAt, SpendsNone};

use crate::judged::Judged;
use net_model::{Claim, Design, InvClause};
use sdcv_base::Seq;
use verdicts::Limits;

/// An invariant that was found elsewhere is enough: where the further clauses are an inductive set at depth 1, and no stretch
/// that meets them answers the step query of depth 0 of a claim that is judged, the claim is justified at depth 0, unless some
/// query spends its budget.
pub fn invariant_is_enough(
    design: &Design,
    claims: &Seq<Claim>,
    extra: &[InvClause],
    limits: &Limits,
    judged: &Judged,
    place: usize,
)
    requires sound { IsSound design.now }
    requires judged { AreJudged design.now claims.now extra.now 1 limits.now judged.now }
    requires none_spent { judged.now.inv.spent ≡ [] }
    requires inductive_ { IsInductive design.now 1 extra.now }
    ensures { (claim : ClaimRecord) (verdict : VerdictRecord) → slice_get claims.now place ≡ Some claim → slice_get judged.now.verdicts place ≡ Some verdict
        → IsJudged design.now claim → SpendsNone verdict
        → ((stretch : List Cycle) → ¬ IsAnswer (claim_query design.now claim Step 0 extra.now) stretch) → IsJustifiedAt 0 verdict }
{}
