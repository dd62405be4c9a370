//! Laws of firm violations. Each is the contract of a call that does nothing, for callers that cite it.
ghost use Rattle.std.specs.Prelude.{ℕ};
ghost use Rattle.net_model.specs.Netlist.{IsSound};
ghost use Rattle.net_model.specs.Fits.{Fits};
ghost use Rattle.net_model.specs.Stimuli.{IsLawful};
ghost use Rattle.firm_runs.specs.Firm.{IsFirm, IsShownFirm};

use crate::free_bits::FreeBits;
use net_model::{Claim, Design, Stimulus};

/// What three values show firm is firm: each run that has the stimulus's bits but for those of free inputs is violated there,
/// where hazards count too.
pub fn shown_firm(design: &Design, free: &FreeBits, claim: &Claim, stimulus: &Stimulus)
    requires sound { IsSound design.now }
    requires fits { Fits design.now claim.now }
    requires lawful { IsLawful design.now stimulus.now }
    ensures { (t : ℕ) → IsShownFirm design.now free.now claim.now stimulus.now t → IsFirm design.now free.now claim.now stimulus.now t }
{}
