//! The run that violates the claim of a pair, in the design of its texts.
ghost use Rattle.std.specs.Prelude.{◌≡◌, ◌<◌, length, IfOk};
ghost use Rattle.net_model.specs.Netlist.{IsSound};
ghost use Rattle.net_model.specs.Fits.{Fits};
ghost use Rattle.run_views.specs.Violations.{IsShowable, IsViolation};
ghost use Rattle.design_stages.specs.Designs.{CanBeJudged};
ghost use Rattle.view_commands.specs.Runs.{IsPairRun, IsViolatedPair};

use crate::lines::replay_line;
use crate::pairs::ViolatedPair;
use crate::stops::Stop;
use crate::words::PairWords;
use design_stages::Designed;
use net_model::{Claim, Design, Stimulus};
use report_rows::PairRow;
use report_text::claim_text;
use run_views::{Violation, violation};
use selected_types::{PairLine, Selected};
use std::alloc::{AllocError, Global};

/// The run that violates the claim of a pair, in a design.
///
/// What holds where it was made (`IsPairRun`): the design is sound, the claim at the place fits it, and the run violates the
/// claim.
#[derive(Drop)]
pub(crate) struct PairRun {
    /// The place of the pair among those that are selected in the design.
    pub place: usize,
    /// The line of the pair's exception in the constraints, from 1.
    pub line: u64,
    pub violation: Violation,
}

// What a report says that is claimed of a pair.
fn said_of(alloc: Global, row: &PairRow) -> Result<String, AllocError> {
    let PairRow {
        kind,
        start,
        end,
        ..
    } = row;
    format!(in alloc; "{kind} {start} -> {end}")
}

// What is claimed of a pair here, in the words of a report.
fn claimed_of(alloc: Global, claim: &Claim, line: &PairLine) -> Result<String, AllocError> {
    let kind = claim_text(alloc, claim)?;
    let PairLine { start, end, .. } = line;
    format!(in alloc; "{kind} {start} -> {end}")
}

// A report of other texts: it says something else of the pair than what is claimed here.
fn other_pair(alloc: Global, words: &PairWords<'_>, said: &str, here: &str) -> Stop {
    let PairWords { report, pair } = *words;
    Stop::refused(format!(in alloc;
        "{report} is of other texts: its pair {pair} is {said}, here it is {here}"
    ))
}

// The report says of the pair what is claimed of it here.
fn check_pair(
    alloc: Global,
    words: &PairWords<'_>,
    row: &PairRow,
    claim: &Claim,
    line: &PairLine,
) -> Result<(), Stop> {
    let said = said_of(alloc, row)?;
    let here = claimed_of(alloc, claim, line)?;
    if said.as_bytes() == here.as_bytes() {
        return Ok(());
    }
    Err(other_pair(alloc, words, &said, &here))
}

// A report of other texts: here are fewer pairs than it has.
fn fewer_pairs(alloc: Global, words: &PairWords<'_>, row: &PairRow, count: usize) -> Stop {
    let PairWords { report, pair } = *words;
    let PairRow {
        kind,
        start,
        end,
        ..
    } = row;
    Stop::refused(format!(in alloc;
        "{report} is of other texts: its pair {pair} is {kind} {start} -> {end}, here are {count} pairs"
    ))
}

// The place of the pair that these words ask for, where the report says of it what is claimed of it here.
fn place_of(
    alloc: Global,
    words: &PairWords<'_>,
    row: &PairRow,
    selected: &Selected,
) -> Result<usize, Stop>
    requires { length selected.now.claims ≡ length selected.now.pairs }
    ensures { IfOk result (λ place. place < length selected.now.claims) }
{
    let count = selected.pairs.len();
    let place = words.pair.saturating_sub(1);
    if place >= count as u64 {
        return Err(fewer_pairs(alloc, words, row, count));
    }
    let place = place as usize;
    let claim = selected.claims.item(place);
    check_pair(alloc, words, row, claim, selected.pairs.item(place))?;
    Ok(place)
}

// The line of a pair's exception in the constraints.
fn line_of(selected: &Selected, pair: &PairLine) -> u64 {
    let place = pair.command.saturating_sub(1) as usize;
    match selected.commands.as_slice().get(place) {
        Some(command) => command.line,
        None => 0,
    }
}

// A report of other texts: the run of its stimulus violates nothing.
fn no_violation(alloc: Global, words: &PairWords<'_>) -> Stop {
    let PairWords { report, pair } = *words;
    Stop::refused(format!(in alloc;
        "{report} is of other texts: the run of pair {pair} violates nothing here"
    ))
}

// The run of a stimulus that violates a claim.
fn violation_of(
    alloc: Global,
    words: &PairWords<'_>,
    design: &Design,
    claim: &Claim,
    stimulus: &Stimulus,
) -> Result<Violation, Stop>
    requires sound { IsSound design.now }
    requires fits { Fits design.now claim.now }
    ensures found { IfOk result (IsViolation design.now claim.now stimulus.now) }
    ensures showable { IfOk result (IsShowable design.now) }
{
    match violation(alloc, design, claim, stimulus) {
        Ok(Some(found)) => Ok(found),
        Ok(None) => Err(no_violation(alloc, words)),
        Err(fault) => Err(Stop::refused(replay_line(alloc, words, fault))),
    }
}

/// The run of a pair in its design. A report that is not of these texts is refused.
pub(crate) fn pair_run(
    alloc: Global,
    words: &PairWords<'_>,
    pair: &ViolatedPair,
    designed: &Designed,
) -> Result<PairRun, Stop>
    requires pair { IsViolatedPair pair.now }
    requires design { CanBeJudged designed.now }
    ensures { IfOk result (IsPairRun designed.now pair.now.asked.stimulus) }
{
    let Designed {
        linked,
        selected,
        ..
    } = designed;
    let row = pair.report.pairs.item(pair.asked.place);
    let place = place_of(alloc, words, row, selected)?;
    let line = line_of(selected, selected.pairs.item(place));
    let claim = selected.claims.item(place);
    let violation = violation_of(alloc, words, &linked.design, claim, &pair.asked.stimulus)?;
    Ok(PairRun {
        place,
        line,
        violation,
    })
}
