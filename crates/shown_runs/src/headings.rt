//! What is told of a pair before its run.
ghost use Rattle.std.specs.Prelude.{◌≡◌, IfOk, string_bytes};
ghost use Rattle.shown_runs.specs.Lines as spec;

use crate::runs::ShownRun;
use sdcv_base::Name;
use std::alloc::{AllocError, Global};

/// What is told of a pair whose claim a run violates.
#[derive(Clone, Copy)]
pub enum Told {
    Refuted,
    /// The violation may rest on what is free.
    Undecided,
}

/// A pair by its number and its exception, which has a number and a line: what is claimed of it, its start and its end, what is
/// told of it, and why (`offset 0`, or of an undecided one `free 0`).
#[derive(Drop)]
pub struct Heading {
    pub number: u64,
    pub command: u64,
    pub line: u64,
    pub kind: Name,
    pub start: Name,
    pub end: Name,
    pub told: Told,
    pub why: Name,
}

fn told_text(told: Told) -> &'static str
    ensures { result.now ≡ spec.told_text told }
{
    match told {
        Told::Refuted => "refuted",
        Told::Undecided => "undecided",
    }
}

fn claim_text(alloc: Global, heading: &Heading) -> Result<String, AllocError>
    ensures { IfOk result (λ text. string_bytes text ≡ spec.claim_text heading.now) }
{
    let kind = &heading.kind;
    let start = &heading.start;
    let end = &heading.end;
    format!(in alloc; "{kind} {start} -> {end}")
}

/// The line of the pair.
#[tactic(auto, unfolding(crate::specs::Lines::pair_text))]
pub(crate) fn pair_text(alloc: Global, heading: &Heading) -> Result<String, AllocError>
    ensures { IfOk result (λ text. string_bytes text ≡ spec.pair_text heading.now) }
{
    let number = heading.number;
    let command = heading.command;
    let line = heading.line;
    let claim = claim_text(alloc, heading)?;
    let told = told_text(heading.told);
    let why = &heading.why;
    format!(in alloc; "pair {number} command {command} line {line} {claim} {told} {why}")
}

/// The line of the change and of the capture that is judged.
#[tactic(auto, unfolding(crate::specs::Lines::change_text))]
pub(crate) fn change_text(alloc: Global, shown: &ShownRun) -> Result<String, AllocError>
    ensures { IfOk result (λ text. string_bytes text ≡ spec.change_text shown.now) }
{
    let toggle = shown.toggle;
    let judged = shown.judged;
    format!(in alloc;
        "the start changes into cycle {toggle}, the capture of cycle {judged} is judged"
    )
}
