//! Laws of hazards. Each is the contract of a call that does nothing, for callers that cite it.
ghost use Rattle.net_model.specs.Netlist.{IsSound};
ghost use Rattle.net_model.specs.Fits.{Fits};
ghost use Rattle.net_model.specs.Judge.{Holds};
ghost use Rattle.ternary_sim.specs.Hazards.{plain_of, hazard_of, StaysViolated};

use net_model::{Claim, Design};

/// What violates a claim where hazards don't count violates it at the same toggle where they do, in runs and stretches.
///
/// So a claim that holds where hazards count holds where they don't.
pub fn plain_violation_is_hazard(design: &Design, claim: &Claim)
    requires sound { IsSound design.now }
    requires fits { Fits design.now claim.now }
    ensures violated { StaysViolated design.now claim.now }
    ensures holds { Holds design.now (hazard_of claim.now) → Holds design.now (plain_of claim.now) }
{}
