//! All pairs of a design.
ghost use Rattle.std.specs.Prelude.{◌≡◌, All, IfOk, IfErr, OnOk, length};
ghost use Rattle.net_model.specs.Netlist.{IsSound};
ghost use Rattle.net_model.specs.Fits.{Fits, NamesRegs};
ghost use Rattle.verdicts.specs.Inductive.{AreAlwaysMet};
ghost use Rattle.linked_types.specs.Usable.{IsUsable};
ghost use Rattle.mcp_detect.specs.Options.{AreInRange};
ghost use Rattle.mcp_detect.specs.Detections.{AreDetected, AreTried, IsBare};
ghost use Rattle.mcp_detect.specs.Causes.{IsDetectCause, HasFewPairs};

use crate::detections::{Detected, Tried};
use crate::faults::DetectFault;
use crate::options::DetectOptions;
use crate::selecting::selected;
use crate::tries::tried;
use invariants::invariants;
use linked_types::Linked;
use net_model::Design;
use pair_prove::Progress;
use query_asks::Prepared;
use sdcv_base::Seq;
use selected_types::Selected;
use std::alloc::{AllocError, Global};
use verdicts::InvSet;

/// The pairs of registers between which a path leads, each with the largest multiplier up to which its claims are justified, at
/// most the bound. The clauses over register bits with which they are proved are kept for all pairs together, by the claims of
/// multiplier 2. How many pairs are tried, `progress` is told before the first and after each.
pub fn detect<P: Progress>(
    alloc: Global,
    linked: &Linked,
    options: &DetectOptions,
    progress: &mut P,
) -> Result<Detected, DetectFault>
    requires linked { IsUsable linked.now }
    requires range { AreInRange options.now }
    ensures ok { IfOk result (AreDetected linked.now options.now) }
    ensures err { IfErr result (IsDetectCause linked.now) }
    ensures none { OnOk result (HasFewPairs linked.now) }
{
    let selected = selected(alloc, linked, options.hazard)?;
    progress.judged(0, selected.claims.len());
    let (depth, budget) = (options.inv_depth, options.budget);
    let inv = invariants(alloc, &linked.design, &selected.claims, &[], depth, budget)?;
    let tried = pairs_tried(alloc, &linked.design, &selected, &inv, options, progress)?;
    Ok(Detected { inv, tried })
}

// The pairs, each tried. Where there is none, the design is not prepared.
fn pairs_tried<P: Progress>(
    alloc: Global,
    design: &Design,
    selected: &Selected,
    inv: &InvSet,
    options: &DetectOptions,
    progress: &mut P,
) -> Result<Seq<Tried>, AllocError>
    requires sound { IsSound design.now }
    requires as_many { length selected.now.claims ≡ length selected.now.pairs }
    requires fit { All (Fits design.now) selected.now.claims }
    requires bare { All IsBare selected.now.claims }
    requires names { All (NamesRegs design.now) inv.now.kept }
    requires met { AreAlwaysMet design.now inv.now.kept }
    requires range { AreInRange options.now }
    ensures { IfOk result (AreTried design.now options.now inv.now.kept selected.now) }
{
    if selected.claims.is_empty() {
        return Ok(Seq::new(alloc));
    }
    let prepared = Prepared::of(alloc, design)?;
    all_tried(alloc, &prepared, selected, inv, options, progress)
}

// The pairs, each tried in a prepared design.
fn all_tried<P: Progress>(
    alloc: Global,
    design: &Prepared,
    selected: &Selected,
    inv: &InvSet,
    options: &DetectOptions,
    progress: &mut P,
) -> Result<Seq<Tried>, AllocError>
    requires sound { IsSound design.now }
    requires as_many { length selected.now.claims ≡ length selected.now.pairs }
    requires fit { All (Fits design.now) selected.now.claims }
    requires bare { All IsBare selected.now.claims }
    requires names { All (NamesRegs design.now) inv.now.kept }
    requires met { AreAlwaysMet design.now inv.now.kept }
    requires range { AreInRange options.now }
    ensures { IfOk result (AreTried design.now options.now inv.now.kept selected.now) }
{
    let mut all = Seq::new(alloc);
    for place in 0..selected.claims.len() {
        let line = selected.pairs.item(place);
        let claim = selected.claims.item(place);
        all.push(tried(alloc, design, line, claim, inv, options)?)?;
        progress.judged(place + 1, selected.claims.len());
    }
    Ok(all)
}
