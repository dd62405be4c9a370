//! Derivations in a text.
ghost use Rattle.std.specs.Prelude.{◌≡◌, ◌+◌, ◌++◌, ◌<◌, length, IfOk, IfErr, OnOk};
ghost use Rattle.sdcv_base.specs.Cursors.{rest, place_of};
ghost use Rattle.cert_lines.specs.Kinds.{text_of, step_words, IsStep};
ghost use Rattle.cert_lines.specs.Texts.{AreMany, many_text, IsFault};
ghost use Rattle.cert_lines.specs.Derivations.{derivation_text, IsWritable};

use crate::faults::Fault;
use crate::standing::{take_head, take_step};
use crate::writing::{push_head, push_step};
use net_model::Phase;
use proof_log::{DerivStep, Derivation};
use sdcv_base::{Cursor, Seq};
use std::alloc::{AllocError, Global};

/// Passes so many lines of steps. Memory is taken for lines that are there, whatever count is said.
fn take_steps(alloc: Global, cursor: &mut Cursor<'_>, count: u64) -> Result<Seq<DerivStep>, Fault>
    ensures ok { IfOk result (λ v. AreMany count IsStep v × (rest cursor.old ≡ many_text (text_of step_words) v ++ rest cursor.new)) }
    ensures place { OnOk result (place_of cursor.new + length (rest cursor.new) ≡ place_of cursor.old + length (rest cursor.old)) }
    ensures err { IfErr result (IsFault (AreMany count IsStep) (many_text (text_of step_words)) (rest cursor.old) (place_of cursor.old)) }
{
    let mut steps = Seq::new(alloc);
    for _ in 0..count {
        steps.push(take_step(alloc, cursor)?)?;
    }
    Ok(steps)
}

/// Passes a derivation.
pub fn take_derivation(
    alloc: Global,
    cursor: &mut Cursor<'_>,
    phase: Phase,
) -> Result<Derivation, Fault>
    ensures ok { IfOk result (λ v. IsWritable v × (rest cursor.old ≡ derivation_text phase v ++ rest cursor.new)) }
    ensures place { OnOk result (place_of cursor.new + length (rest cursor.new) ≡ place_of cursor.old + length (rest cursor.old)) }
    ensures err { IfErr result (IsFault IsWritable (derivation_text phase) (rest cursor.old) (place_of cursor.old)) }
{
    let count = take_head(cursor, phase)?;
    let steps = take_steps(alloc, cursor, count)?;
    Ok(Derivation { steps })
}

/// Appends the lines of steps.
fn push_steps(alloc: Global, out: &mut Vec<u8>, steps: &[DerivStep]) -> Result<(), AllocError>
    ensures { OnOk result (out.new.items ≡ out.old.items ++ many_text (text_of step_words) steps.now) }
{
    for step in steps {
        push_step(alloc, out, step)?;
    }
    Ok(())
}

/// Appends a derivation.
pub fn push_derivation(
    alloc: Global,
    out: &mut Vec<u8>,
    phase: Phase,
    derivation: &Derivation,
) -> Result<(), AllocError>
    ensures { OnOk result (out.new.items ≡ out.old.items ++ derivation_text phase derivation.now) }
{
    push_head(alloc, out, phase, derivation.steps.len() as u64)?;
    push_steps(alloc, out, derivation.steps.as_slice())?;
    Ok(())
}
