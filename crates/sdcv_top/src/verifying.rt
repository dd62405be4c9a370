//! The verdicts on the selected pairs, with their certificate and their report.
ghost use Rattle.std.specs.Prelude.{◌≡◌, ℕ, List, All, IfOk};
ghost use Rattle.std.specs.Option.{option_map};
ghost use Rattle.net_model.specs.declared.invariants.InvClause.{InvClause as InvClauseRecord};
ghost use Rattle.net_model.specs.Fits.{NamesRegs};
ghost use Rattle.told_verdicts.specs.Tolds.{AreTold, AreRightTold};
ghost use Rattle.verdict_types.specs.Forms.{IsKeptClause};
ghost use Rattle.verdict_types.specs.declared.outcomes.Limits.{Limits as LimitsRecord};
ghost use Rattle.design_stages.specs.Designs.{CanBeJudged};
ghost use Rattle.judgements.specs.Judgements.{AreJudged, AreAllInForm};
ghost use Rattle.sdcv_top.specs.Headline.{IsReported, IsSaved, ending_by, free_bits, limits_of, AreInRange};
ghost use Rattle.sdcv_top.specs.Plans.{outcome_of, saved_of};

use crate::plans::{Plan, SavedFile};
use design_stages::Designed;
use judgements::{InvSearch, Judged, Progress, certificate, judge, report};
use linked_types::Names;
use net_model::InvClause;
use report_text::{Tally, leaves_open, tally_of};
use run_ends::Ending;
use run_options::RunOptions;
use std::alloc::{AllocError, Global};
use told_verdicts::{FreeBits, told};
use verdict_types::Limits;

/// How a verification is made, and what is told of it.
#[derive(Clone, Copy)]
pub struct Verifying<'a> {
    pub options: RunOptions,
    /// The name of the certificate, where one is saved.
    pub out: Option<&'a str>,
    pub json: bool,
}

/// Judges all selected pairs, with further clauses among those that are tried. A certificate of the verdicts is saved where it has
/// a name.
pub fn verified<'a, P: Progress>(
    alloc: Global,
    designed: &Designed,
    verifying: &Verifying<'a>,
    extra: &[InvClause],
    progress: &mut P,
) -> Result<Plan<'a>, AllocError>
    requires judged { CanBeJudged designed.now }
    requires options { AreInRange verifying.now.options }
    requires names { All (NamesRegs designed.now.linked.design) extra.now }
    requires in_form { All IsKeptClause extra.now }
    ensures { IfOk result (λ plan. IsReported (option_map (λ t. t.now) verifying.entry.now.out) verifying.now.json verifying.now.options extra.now
        designed.now (outcome_of plan)) }
{
    let Verifying { options, out, json } = *verifying;
    let limits = Limits {
        depth: options.depth,
        budget: options.budget,
    };
    let judged = judged(alloc, designed, &options, extra, progress)?;
    let saved = certified(alloc, designed, &limits, &judged, out)?;
    let told = told_of(alloc, designed, judged)?;
    let left_open = leaves_open(&options, &designed.notices, &designed.selected);
    let lines = report(
        alloc,
        &options,
        &designed.notices,
        &designed.selected,
        told.verdicts.as_slice(),
        json,
    )?;
    Ok(Plan {
        ending: ending_by(left_open, tally_of(told.verdicts.as_slice())),
        saved,
        lines,
        judged: Some(told),
        detected: None,
    })
}

/// The verdicts on all selected pairs, with further clauses among those that are tried.
pub fn judged<P: Progress>(
    alloc: Global,
    designed: &Designed,
    options: &RunOptions,
    extra: &[InvClause],
    progress: &mut P,
) -> Result<Judged, AllocError>
    requires judged { CanBeJudged designed.now }
    requires options { AreInRange options.now }
    requires names { All (NamesRegs designed.now.linked.design) extra.now }
    requires in_form { All IsKeptClause extra.now }
    ensures judged { IfOk result (AreJudged designed.now.linked.design designed.now.selected.claims extra.now options.now.inv_depth (limits_of options.now)) }
    ensures in_form { IfOk result AreAllInForm }
{
    let design = &designed.linked.design;
    let claims = &designed.selected.claims;
    let search = InvSearch {
        depth: options.inv_depth,
        extra,
    };
    let limits = Limits {
        depth: options.depth,
        budget: options.budget,
    };
    judge(alloc, design, claims, &search, &limits, progress)
}

/// What is told of the verdicts: a pair that is refuted by bits of free inputs is undecided.
pub fn told_of(alloc: Global, designed: &Designed, judged: Judged) -> Result<Judged, AllocError>
    requires designed { CanBeJudged designed.now }
    requires judged { (extra : List InvClauseRecord) × (inv_depth : ℕ) × (limits : LimitsRecord) × AreJudged designed.now.linked.design
        designed.now.selected.claims extra inv_depth limits judged }
    ensures inv { IfOk result (λ told. told.inv ≡ judged.inv) }
    ensures each { IfOk result (λ told. AreTold designed.now.linked.design (free_bits designed.now.linked.names) designed.now.selected.claims
        judged.verdicts told.verdicts) }
    ensures right { IfOk result (λ told. AreRightTold designed.now.linked.design (free_bits designed.now.linked.names) designed.now.selected.claims
        judged.verdicts told.verdicts) }
{
    let Judged { inv, verdicts } = judged;
    let free = free_bits(&designed.linked.names);
    let verdicts = told(
        alloc,
        &designed.linked.design,
        &free,
        &designed.selected.claims,
        verdicts,
    )?;
    Ok(Judged { inv, verdicts })
}

// The inputs and outputs of a design that are none of its ports'.
fn free_bits(names: &Names) -> FreeBits
    ensures { result ≡ free_bits names.now }
{
    FreeBits {
        first: names.ins.len(),
        count: names.free.len(),
        sinks_from: names.outs.len(),
    }
}

// The certificate of the verdicts, where it has a name.
fn certified<'a>(
    alloc: Global,
    designed: &Designed,
    limits: &Limits,
    judged: &Judged,
    out: Option<&'a str>,
) -> Result<Option<SavedFile<'a>>, AllocError>
    requires judged { (extra : List InvClauseRecord) × (inv_depth : ℕ) × AreJudged designed.now.linked.design designed.now.selected.claims
        extra inv_depth limits.now judged.now }
    requires in_form { AreAllInForm judged.now }
    ensures { IfOk result (λ saved. IsSaved (option_map (λ t. t.now) out.entry) designed.now.linked.design
        designed.now.selected.claims judged.now (saved_of saved)) }
{
    let Some(name) = out else {
        return Ok(None);
    };
    let bytes = certificate(
        alloc,
        &designed.linked.design,
        &designed.selected.claims,
        limits,
        judged,
    )?;
    Ok(Some(SavedFile { name, bytes }))
}

// How a run ends that reports so many verdicts of each kind, and leaves something else open or not.
fn ending_by(left_open: bool, tally: Tally) -> Ending
    ensures { result ≡ ending_by left_open tally }
{
    if tally.refuted > 0 {
        Ending::Refuted
    } else if tally.undecided > 0 || left_open {
        Ending::Undecided
    } else {
        Ending::Done
    }
}
