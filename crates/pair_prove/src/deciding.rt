//! Queries of growing depth, until one decides.
ghost use Rattle.std.specs.Prelude.{◌≤◌, All, IfOk};
ghost use Rattle.net_model.specs.Netlist.{IsSound};
ghost use Rattle.net_model.specs.Fits.{Fits};
ghost use Rattle.net_model.specs.Fits.{NamesRegs};
ghost use Rattle.verdicts.specs.Verdicts.{IsJudged, IsRight};
ghost use Rattle.verdict_types.specs.Forms.{IsVerdictInForm};

use net_model::{Claim, InvClause, Phase};
use query_asks::{Asked, Prepared, Probe, ask_claim};
use sdcv_base::Seq;
use std::alloc::{AllocError, Global};
use verdicts::{Cause, Limits, Proof, Verdict};

/// The verdict on a claim about which queries are asked.
pub(crate) fn decide(
    alloc: Global,
    design: &Prepared,
    claim: &Claim,
    kept: &[InvClause],
    limits: Limits,
) -> Result<Verdict, AllocError>
    requires sound { IsSound design.now }
    requires fits { Fits design.now claim.now }
    requires names { All (NamesRegs design.now) kept.now }
    requires judged { IsJudged design.now claim.now }
    requires few { limits.depth ≤ 64 }
    ensures right { IfOk result (IsRight design.now claim.now kept.now limits) }
    ensures in_form { IfOk result IsVerdictInForm }
{
    let budget = limits.budget;
    let mut base = Seq::new(alloc);
    let mut depth = 0;
    loop {
        let phase = Phase::Base;
        let probe = Probe {
            phase,
            depth,
            budget,
        };
        let derivation = match ask_claim(alloc, design, claim, kept, probe)? {
            Asked::Answered(found) => {
                let stimulus = found.stimulus(alloc, design)?;
                let offset = depth;
                return Ok(Verdict::Refuted { offset, stimulus });
            }
            Asked::Spent(log) => return Ok(Verdict::Undecided(Cause::Budget { phase, depth, log })),
            Asked::Refuted(derivation) => derivation,
        };
        let phase = Phase::Step;
        let probe = Probe {
            phase,
            depth,
            budget,
        };
        match ask_claim(alloc, design, claim, kept, probe)? {
            Asked::Refuted(step) => {
                return Ok(Verdict::Justified(Proof::Depth { depth, base, step }));
            }
            Asked::Spent(log) => return Ok(Verdict::Undecided(Cause::Budget { phase, depth, log })),
            Asked::Answered(_) => {}
        }
        if depth == limits.depth {
            return Ok(Verdict::Undecided(Cause::Depth));
        }
        base.push(derivation)?;
        depth += 1;
    }
}
