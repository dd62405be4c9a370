//! The largest multiplier of one pair.
ghost use Rattle.std.specs.Prelude.{◌≡◌, ◌↔◌, All, IfOk, IsTrue};
ghost use Rattle.net_model.specs.Netlist.{IsSound};
ghost use Rattle.net_model.specs.Fits.{Fits, NamesRegs};
ghost use Rattle.verdicts.specs.Inductive.{AreAlwaysMet};
ghost use Rattle.mcp_detect.specs.Options.{AreInRange};
ghost use Rattle.mcp_detect.specs.Detections.{IsBare, IsJustified, IsLargest, IsTried};
ghost use Rattle.mcp_detect.specs.Detections as spec;

use crate::detections::Tried;
use crate::options::DetectOptions;
use net_model::{Claim, Kind};
use pair_prove::prove;
use query_asks::Prepared;
use sdcv_base::Seq;
use selected_types::PairLine;
use std::alloc::{AllocError, Global};
use verdicts::{InvSet, Verdict};

// The multiplier up to which all claims of a pair are justified, and below the bound the verdict on the next one.
#[derive(Drop)]
struct Largest {
    k: u8,
    next: Option<Verdict>,
}

/// A selected pair with its largest multiplier. Each of its claims is proved with the kept clauses of `inv`.
pub(crate) fn tried(
    alloc: Global,
    design: &Prepared,
    line: &PairLine,
    claim: &Claim,
    inv: &InvSet,
    options: &DetectOptions,
) -> Result<Tried, AllocError>
    requires sound { IsSound design.now }
    requires fits { Fits design.now claim.now }
    requires bare { IsBare claim.now }
    requires names { All (NamesRegs design.now) inv.now.kept }
    requires met { AreAlwaysMet design.now inv.now.kept }
    requires range { AreInRange options.now }
    ensures { IfOk result (IsTried design.now options.now inv.now.kept line.now claim.now) }
{
    let Largest { k, next } = largest_of(alloc, design, claim, inv, options)?;
    Ok(Tried {
        start: line.start.copy(alloc)?,
        end: line.end.copy(alloc)?,
        k,
        next,
    })
}

fn largest_of(
    alloc: Global,
    design: &Prepared,
    claim: &Claim,
    inv: &InvSet,
    options: &DetectOptions,
) -> Result<Largest, AllocError>
    requires sound { IsSound design.now }
    requires fits { Fits design.now claim.now }
    requires bare { IsBare claim.now }
    requires names { All (NamesRegs design.now) inv.now.kept }
    requires met { AreAlwaysMet design.now inv.now.kept }
    requires range { AreInRange options.now }
    ensures { IfOk result (λ found. IsLargest design.now options.now inv.now.kept claim.now found.k found.next) }
{
    let limits = options.limits();
    for k in 1..options.bound {
        let larger = with_multiplier(alloc, claim, k + 1);
        let verdict = prove(alloc, design, &larger, inv, &limits)?;
        if !is_justified(&verdict) {
            return Ok(Largest {
                k,
                next: Some(verdict),
            });
        }
    }
    Ok(Largest {
        k: options.bound,
        next: None,
    })
}

// The claim of the same pair with this multiplier.
fn with_multiplier(alloc: Global, claim: &Claim, k: u8) -> Claim
    requires { IsBare claim.now }
    ensures { result ≡ spec.with_multiplier k claim.now }
{
    Claim {
        kind: Kind::Multi(k),
        edge: claim.edge,
        lag: claim.lag,
        hazard: claim.hazard,
        early: claim.early,
        start: claim.start,
        end: claim.end,
        through: Seq::new(alloc),
    }
}

fn is_justified(verdict: &Verdict) -> bool
    ensures { IsTrue result ↔ IsJustified verdict.now }
{
    matches!(verdict, Verdict::Justified(_))
}
