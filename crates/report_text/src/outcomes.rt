//! The words of a verdict.
ghost use Rattle.std.specs.Prelude.{◌≡◌, IfOk, string_bytes};
ghost use Rattle.report_text.specs.Words.{verdict_word, proof_text, phase_text, cause_text, why_text};

use net_model::Phase;
use std::alloc::{AllocError, Global};
use verdict_types::{Cause, Proof, Verdict};

/// What a verdict is.
pub fn verdict_word(verdict: &Verdict) -> &'static str
    ensures { result.now ≡ verdict_word verdict.now }
{
    match verdict {
        Verdict::Justified(_) => "justified",
        Verdict::Refuted { .. } => "refuted",
        Verdict::Undecided(_) => "undecided",
    }
}

fn proof_text(alloc: Global, proof: &Proof) -> Result<String, AllocError>
    ensures { IfOk result (λ text. string_bytes text ≡ proof_text proof.now) }
{
    match proof {
        Proof::Single => String::from_str(alloc, "single"),
        Proof::Fixed => String::from_str(alloc, "fixed"),
        Proof::Depth { depth, .. } => format!(in alloc; "depth {depth}"),
    }
}

fn phase_text(phase: Phase) -> &'static str
    ensures { result.now ≡ phase_text phase }
{
    match phase {
        Phase::Base => "base",
        Phase::Step => "step",
    }
}

// `limit` is the greatest depth that the run allows.
fn cause_text(alloc: Global, limit: usize, cause: &Cause) -> Result<String, AllocError>
    ensures { IfOk result (λ text. string_bytes text ≡ cause_text limit cause.now) }
{
    match cause {
        Cause::Depth => format!(in alloc; "depth {limit}"),
        Cause::Budget { phase, depth, .. } => {
            let phase = phase_text(*phase);
            format!(in alloc; "budget {phase} {depth}")
        }
        Cause::Free { offset, .. } => format!(in alloc; "free {offset}"),
        Cause::Cut => String::from_str(alloc, "cut"),
    }
}

/// Why a verdict is that, in a run whose greatest depth is `limit`.
pub fn why_text(alloc: Global, limit: usize, verdict: &Verdict) -> Result<String, AllocError>
    ensures { IfOk result (λ text. string_bytes text ≡ why_text limit verdict.now) }
{
    match verdict {
        Verdict::Justified(proof) => proof_text(alloc, proof),
        Verdict::Refuted { offset, .. } => format!(in alloc; "offset {offset}"),
        Verdict::Undecided(cause) => cause_text(alloc, limit, cause),
    }
}
