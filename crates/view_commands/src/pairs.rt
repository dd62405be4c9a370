//! A pair of a report whose claim a run violates.
ghost use Rattle.std.specs.Prelude.{◌≡◌, ◌<◌, IfOk, Some, length, slice_get};
ghost use Rattle.run_options.specs.Judging.{CanJudge};
ghost use Rattle.view_commands.specs.Runs.{IsViolatedPair};

use crate::lines::stimulus_line;
use crate::reports::ReadReport;
use crate::stops::Stop;
use crate::words::PairWords;
use net_model::Stimulus;
use report_rows::{Head, PairRow, Report, Word, stimulus_of};
use run_options::Judging;
use sdcv_base::Seq;
use shown_runs::Told;
use std::alloc::Global;

/// A pair of a report with the stimulus of a run that violates its claim, and how the claims of the report are judged.
///
/// What always holds (`IsViolatedPair`): the pair is one of the report's, and its claim can be judged so.
#[derive(Drop)]
pub(crate) struct ViolatedPair {
    pub report: Report,
    pub asked: AskedPair,
}

/// How a design is read and held in reset: with cells cut out and its top module by name, or not, and for so many cycles.
#[derive(Clone, Copy)]
pub(crate) struct Given {
    pub wide: bool,
    pub reset_len: usize,
}

/// A pair: its place among those of its report, from 0, what is told of it, its stimulus, and how its claim is judged.
#[derive(Drop)]
pub(crate) struct AskedPair {
    pub place: usize,
    pub told: Told,
    pub stimulus: Stimulus,
    pub judging: Judging,
}

fn verdict_word(word: Word) -> &'static str {
    match word {
        Word::Justified => "justified",
        Word::Refuted => "refuted",
        Word::Undecided => "undecided",
    }
}

// The place of the pair that these words ask for.
fn place_of(alloc: Global, words: &PairWords<'_>, rows: &Seq<PairRow>) -> Result<usize, Stop>
    ensures { IfOk result (λ place. place < length rows.now) }
{
    let count = rows.len();
    match words.pair.checked_sub(1) {
        Some(place) if place < count as u64 => Ok(place as usize),
        _ => {
            let PairWords { report, pair } = *words;
            Err(Stop::refused(format!(in alloc; "{report}: no pair {pair}, it has {count}")))
        }
    }
}

// Which pairs of a report have a run.
fn pairs_with_a_run(wide: bool) -> &'static str {
    if wide {
        "a pair that is refuted or undecided free"
    } else {
        "a refuted pair"
    }
}

// The pair has no run.
fn no_run(alloc: Global, words: &PairWords<'_>, verdict: Word, wide: bool) -> Stop {
    let PairWords { report, pair } = *words;
    let verdict = verdict_word(verdict);
    let pairs = pairs_with_a_run(wide);
    Stop::refused(format!(in alloc; "{report}: pair {pair} is {verdict}, only {pairs} has a run"))
}

// What is told of a pair that has a run: that it is refuted, or, where cells may be cut out, that it is undecided for what is free.
fn told_of(alloc: Global, words: &PairWords<'_>, row: &PairRow, wide: bool) -> Result<Told, Stop> {
    match row.verdict {
        Word::Refuted => Ok(Told::Refuted),
        Word::Undecided if wide && row.why.as_bytes().starts_with(b"free ") => Ok(Told::Undecided),
        verdict => Err(no_run(alloc, words, verdict, wide)),
    }
}

// The report was made over a netlist of this form.
fn check_form(alloc: Global, name: &str, head: &Head, wide: bool) -> Result<(), Stop> {
    if head.asked.free.is_some() == wide {
        return Ok(());
    }
    let (then, now) = if wide {
        ("without", "with")
    } else {
        ("with", "without")
    };
    Err(Stop::refused(format!(in alloc;
        "{name} was made {then} --free, --clock or --top, these words are {now}: give them as then"
    )))
}

// The report was made with nothing that these words can't give.
fn check_words(alloc: Global, name: &str, head: &Head, wide: bool) -> Result<(), Stop> {
    check_form(alloc, name, head, wide)?;
    match head.asked.assumed {
        None => Ok(()),
        Some(_) => {
            Err(Stop::refused(format!(in alloc;
                "{name}: no run of a report with assumed is shown"
            )))
        }
    }
}

// How the claims of a report are judged.
fn judging_of(alloc: Global, name: &str, head: &Head, wide: bool) -> Result<Judging, Stop>
    ensures { IfOk result CanJudge }
{
    check_words(alloc, name, head, wide)?;
    if head.lag <= 8 {
        return Ok(Judging {
            hazard: head.hazard,
            lag: head.lag as u8,
            hold: head.hold,
            strict: head.asked.strict,
        });
    }
    let lag = head.lag;
    Err(Stop::refused(format!(in alloc; "{name}: its lag {lag} is above 8")))
}

fn cycles_word(count: u64) -> &'static str {
    if count == 1 { "cycle" } else { "cycles" }
}

// The report was made with so many cycles of reset.
fn check_reset(alloc: Global, name: &str, report: &Report, len: usize) -> Result<(), Stop> {
    let then = report.head.reset;
    if then == len as u64 {
        return Ok(());
    }
    let cycles = cycles_word(then);
    Err(Stop::refused(format!(in alloc;
        "{name} was made with {then} {cycles} of reset, these words give {len}: give --reset as then"
    )))
}

fn stimulus_in(alloc: Global, words: &PairWords<'_>, text: &[u8]) -> Result<Stimulus, Stop> {
    match stimulus_of(alloc, text, words.pair) {
        Ok(stimulus) => Ok(stimulus),
        Err(fault) => Err(Stop::refused(stimulus_line(alloc, words, fault))),
    }
}

// The pair that these words ask for, in a text and its report.
fn asked_pair(
    alloc: Global,
    words: &PairWords<'_>,
    text: &[u8],
    report: &Report,
    given: Given,
) -> Result<AskedPair, Stop>
    ensures place { IfOk result (λ asked. asked.place < length report.now.pairs) }
    ensures judging { IfOk result (λ asked. CanJudge asked.judging) }
{
    check_reset(alloc, words.report, report, given.reset_len)?;
    let judging = judging_of(alloc, words.report, &report.head, given.wide)?;
    let place = place_of(alloc, words, &report.pairs)?;
    let told = told_of(alloc, words, report.pairs.item(place), given.wide)?;
    let stimulus = stimulus_in(alloc, words, text)?;
    Ok(AskedPair {
        place,
        told,
        stimulus,
        judging,
    })
}

/// The pair that these words ask for, in a report that was made over such a design.
pub(crate) fn violated_pair(
    alloc: Global,
    words: &PairWords<'_>,
    read: ReadReport,
    given: Given,
) -> Result<ViolatedPair, Stop>
    ensures { IfOk result IsViolatedPair }
{
    let ReadReport { text, report } = read;
    let asked = asked_pair(alloc, words, &text, &report, given)?;
    Ok(ViolatedPair { report, asked })
}
