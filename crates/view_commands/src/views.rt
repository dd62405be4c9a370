//! What is told of a design: the bits of a stimulus, and the run that violates the claim of a pair as text and as a waveform.
ghost use Rattle.std.specs.Prelude.{◌≤◌, IfOk};
ghost use Rattle.design_stages.specs.Designs.{AreLawful, CanBeJudged};
ghost use Rattle.run_views.specs.Violations.{IsShowable};
ghost use Rattle.view_commands.specs.Bits.{AreBits};
ghost use Rattle.view_commands.specs.Runs.{IsPairRun, IsViolatedPair};

use crate::pairs::{AskedPair, Given, ViolatedPair, violated_pair};
use crate::reports::ReadReport;
use crate::runs::{PairRun, pair_run};
use crate::stops::{Stop, or_stop};
use crate::words::PairWords;
use design_stages::{Designed, ReadTexts, designed};
use link_tops::one_top;
use named_runs::bits_text;
use netlist_types::Source;
use report_rows::PairRow;
use run_options::{Judging, NetlistForm, Reset};
use run_views::Violation;
use run_waves::wave;
use sdcv_base::Name;
use selected_types::Notices;
use shown_runs::{Heading, Told, show};
use std::alloc::{AllocError, Global};

/// How the run of a pair is told.
#[derive(Clone, Copy)]
enum View {
    Text,
    /// As a value change dump.
    Wave,
}

/// A line for each bit of a stimulus of the design, with its full name.
pub fn bits(alloc: Global, texts: &ReadTexts, reset: Reset) -> Result<Vec<u8>, Stop>
    requires lawful { AreLawful texts.now }
    requires reset { reset.len ≤ 64 }
    ensures { IfOk result (λ text. AreBits texts.now reset text.items) }
{
    let judging = Judging {
        hazard: false,
        lag: 0,
        hold: false,
        strict: false,
    };
    let designed = designed(alloc, texts, reset, judging)?;
    match bits_text(alloc, &designed.linked) {
        Ok(text) => Ok(text),
        Err(_) => Err(Stop::Memory),
    }
}

/// The run of a pair of a report as text: of one that is refuted, or undecided for what is free.
pub fn shown(
    alloc: Global,
    words: &PairWords<'_>,
    texts: &ReadTexts,
    reset: Reset,
    report: ReadReport,
) -> Result<Vec<u8>, Stop>
    requires lawful { AreLawful texts.now }
    requires reset { reset.len ≤ 64 }
{
    viewed(alloc, words, texts, reset, report, View::Text)
}

/// That run as a value change dump.
pub fn waved(
    alloc: Global,
    words: &PairWords<'_>,
    texts: &ReadTexts,
    reset: Reset,
    report: ReadReport,
) -> Result<Vec<u8>, Stop>
    requires lawful { AreLawful texts.now }
    requires reset { reset.len ≤ 64 }
{
    viewed(alloc, words, texts, reset, report, View::Wave)
}

// The run of the pair that these words ask for.
fn viewed(
    alloc: Global,
    words: &PairWords<'_>,
    texts: &ReadTexts,
    reset: Reset,
    report: ReadReport,
    view: View,
) -> Result<Vec<u8>, Stop>
    requires lawful { AreLawful texts.now }
    requires reset { reset.len ≤ 64 }
{
    let given = Given {
        wide: matches!(texts.forms.netlist, NetlistForm::Wide(_)),
        reset_len: reset.len,
    };
    let pair = violated_pair(alloc, words, report, given)?;
    pair_view(alloc, words, texts, reset, &pair, view)
}

// The run of a pair, in the design of these texts.
fn pair_view(
    alloc: Global,
    words: &PairWords<'_>,
    texts: &ReadTexts,
    reset: Reset,
    pair: &ViolatedPair,
    view: View,
) -> Result<Vec<u8>, Stop>
    requires lawful { AreLawful texts.now }
    requires reset { reset.len ≤ 64 }
    requires pair { IsViolatedPair pair.now }
{
    let designed = designed(alloc, texts, reset, pair.asked.judging)?;
    match view {
        View::Text => shown_pair(alloc, words, pair, &designed),
        View::Wave => waved_pair(alloc, words, pair, &designed, &texts.source),
    }
}

fn shown_pair(
    alloc: Global,
    words: &PairWords<'_>,
    pair: &ViolatedPair,
    designed: &Designed,
) -> Result<Vec<u8>, Stop>
    requires pair { IsViolatedPair pair.now }
    requires design { CanBeJudged designed.now }
{
    let run = pair_run(alloc, words, pair, designed)?;
    or_stop(show_run(alloc, pair, designed, &run))
}

fn show_run(
    alloc: Global,
    pair: &ViolatedPair,
    designed: &Designed,
    run: &PairRun,
) -> Result<Vec<u8>, AllocError>
    requires pair { IsViolatedPair pair.now }
    requires run { IsPairRun designed.now pair.now.asked.stimulus run.now }
{
    let row = pair.report.pairs.item(pair.asked.place);
    let AskedPair { told, stimulus, .. } = &pair.asked;
    let heading = heading_of(alloc, row, *told, run.line)?;
    let claim = designed.selected.claims.item(run.place);
    show(
        alloc,
        &heading,
        &designed.linked,
        claim,
        stimulus,
        &run.violation,
    )
}

// What the report says of the pair, with the line of its exception.
fn heading_of(alloc: Global, row: &PairRow, told: Told, line: u64) -> Result<Heading, AllocError> {
    Ok(Heading {
        number: row.number,
        command: row.command,
        line,
        kind: row.kind.copy(alloc)?,
        start: row.start.copy(alloc)?,
        end: row.end.copy(alloc)?,
        told,
        why: row.why.copy(alloc)?,
    })
}

fn waved_pair(
    alloc: Global,
    words: &PairWords<'_>,
    pair: &ViolatedPair,
    designed: &Designed,
    source: &Source,
) -> Result<Vec<u8>, Stop>
    requires pair { IsViolatedPair pair.now }
    requires design { CanBeJudged designed.now }
{
    let run = pair_run(alloc, words, pair, designed)?;
    or_stop(wave_run(alloc, source, designed, &run.violation))
}

fn wave_run(
    alloc: Global,
    source: &Source,
    designed: &Designed,
    violation: &Violation,
) -> Result<Vec<u8>, AllocError>
    requires { IsShowable designed.now.linked.design violation.now }
{
    let top = top_name(alloc, source, &designed.notices)?;
    wave(alloc, &top, &designed.linked, violation)
}

// The name of the top module, as it was given or found.
fn top_name(alloc: Global, source: &Source, notices: &Notices) -> Result<Name, AllocError> {
    match &notices.top {
        Some(name) => name.copy(alloc),
        None => only_top(alloc, source),
    }
}

// The name of the module that no module instantiates. A source that was linked has one, so what is left is want of memory.
fn only_top(alloc: Global, source: &Source) -> Result<Name, AllocError> {
    match one_top(alloc, source) {
        Ok(place) => source.modules.item(place).name.copy(alloc),
        Err(_) => Err(AllocError),
    }
}
