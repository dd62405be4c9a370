//! The verdicts on the pairs of a script, and the script that is written again by them.
ghost use Rattle.std.specs.Prelude.{All};
ghost use Rattle.net_model.specs.Fits.{NamesRegs};
ghost use Rattle.verdict_types.specs.Forms.{IsKeptClause};
ghost use Rattle.run_options.specs.Judging.{CanJudge};
ghost use Rattle.report_text.specs.Rows.{HasRows};
ghost use Rattle.mended_text.specs.Scenes.{AreProved, seen_findings};
ghost use Rattle.mended_text.specs.Tellings.{mend_line};
ghost use Rattle.design_stages.specs.Designs.{CanBeJudged};
ghost use Rattle.design_stages.specs.Stages.{Finds, Staged};
ghost use Rattle.sdcv_top.specs.Headline.{AreInRange};
ghost use Rattle.sdcv_top.specs.Mending.{MendedBy, Mends, scene_of};
ghost use Rattle.sdcv_top.specs.Plans.{IsPlanned};

use crate::mendables::Mendable;
use crate::plans::{Plan, SavedFile};
use crate::verifying::{judged, told_of};
use design_stages::Refusal;
use judgements::Progress;
use mended_text::{Findings, Mended, Scene, mend, mend_line, mended_lines};
use net_model::InvClause;
use run_ends::Ending;
use run_options::RunOptions;
use std::alloc::Global;

/// Where a mended script is saved, how its pairs are judged, and a file whose clauses are tried too.
#[derive(Clone, Copy)]
pub struct Wanted<'a> {
    pub out: &'a str,
    pub options: RunOptions,
    pub assist: Option<&'a str>,
}

/// Judges the selected pairs, with further clauses among those that are tried, and mends the script.
pub fn mended<'a, P: Progress>(
    alloc: Global,
    mendable: &Mendable,
    wanted: &Wanted<'a>,
    extra: &[InvClause],
    progress: &mut P,
) -> Result<Plan<'a>, Refusal>
    requires judged { CanBeJudged mendable.now.designed }
    requires judging { CanJudge mendable.now.judging }
    requires options { AreInRange wanted.now.options }
    requires names { All (NamesRegs mendable.now.designed.linked.design) extra.now }
    requires in_form { All IsKeptClause extra.now }
    ensures { IsPlanned (MendedBy wanted.entry.now.out.now wanted.now.options extra.now mendable.now) result }
{
    let Wanted { out, options, .. } = *wanted;
    let judged = judged(alloc, &mendable.designed, &options, extra, progress)?;
    let told = told_of(alloc, &mendable.designed, judged)?;
    let findings = Findings {
        script: &mendable.script,
        hold: mendable.judging.hold,
        selected: &mendable.designed.selected,
        verdicts: told.verdicts.as_slice(),
        depth: options.depth,
    };
    let mended = mended_by(alloc, mendable, &findings)?;
    let lines = mended_lines(
        alloc,
        &options,
        &mendable.designed.notices,
        &findings,
        mended.parts.as_slice(),
    )?;
    let Mended { bytes, .. } = mended;
    Ok(Plan {
        ending: Ending::Done,
        saved: Some(SavedFile { name: out, bytes }),
        lines,
        judged: Some(told),
        detected: None,
    })
}

// The script by what is found out about its pairs.
fn mended_by(alloc: Global, mendable: &Mendable, findings: &Findings<'_>) -> Result<Mended, Refusal>
    requires judged { CanBeJudged mendable.now.designed }
    requires judging { CanJudge mendable.now.judging }
    requires rows { HasRows findings.now.selected.now findings.now.verdicts.now }
    requires proved { AreProved (scene_of mendable.now) (seen_findings findings.now) }
    ensures { Finds (Staged (Mends mendable.now.text (scene_of mendable.now) (seen_findings findings.now)) mend_line) result }
{
    let scene = Scene {
        linked: &mendable.designed.linked,
        inputs: &mendable.settled.inputs,
        resets: &mendable.reset.ports,
        forms: &mendable.forms,
        settings: &mendable.settled.settings,
        judging: mendable.judging,
    };
    match mend(alloc, mendable.text.as_slice(), &scene, findings) {
        Ok(mended) => Ok(mended),
        Err(fault) => Err(Refusal::Line(mend_line(alloc, fault)?)),
    }
}
