//! The lines, written.
ghost use Rattle.std.specs.Prelude.{◌≡◌, ◌++◌, ◌∷◌, [], ◌<◌, ◌^◌, ◌+◌, true, map, OnOk, All};
ghost use Rattle.std.specs.Fmt.{decimal};
ghost use Rattle.cert_lines.specs.Kinds.{text_of, first_words, inv_words, state_word, led, kept_words, IsKept, phase_word};
ghost use Rattle.cert_lines.specs.Kinds.{head_words, section_words, step_words};

use crate::heads::InvHead;
use crate::sections::Section;
use cert_words::{push_hints, push_lit, push_lits};
use net_model::{InvClause, Phase, StateLit};
use proof_log::{DerivStep, Lit};
use sdcv_base::push_decimal;
use std::alloc::{AllocError, Global};

/// Appends the first line.
pub fn push_first(alloc: Global, out: &mut Vec<u8>, version: u64) -> Result<(), AllocError>
    ensures { OnOk result (out.new.items ≡ out.old.items ++ text_of first_words version) }
{
    out.extend_from_slice(b"sdcv-cert")?;
    push_last_number(alloc, out, version)?;
    Ok(())
}

/// Appends a space, a number and the newline.
fn push_last_number(alloc: Global, out: &mut Vec<u8>, number: u64) -> Result<(), AllocError>
    ensures { OnOk result (out.new.items ≡ out.old.items ++ 32 ∷ (decimal number ++ 10 ∷ [])) }
{
    out.push(b' ')?;
    push_decimal(alloc, out, number)?;
    Ok(out.push(b'\n')?)
}

/// Appends the line of kept clauses.
pub fn push_inv(alloc: Global, out: &mut Vec<u8>, head: InvHead) -> Result<(), AllocError>
    ensures { OnOk result (out.new.items ≡ out.old.items ++ text_of inv_words head) }
{
    out.extend_from_slice(b"inv ")?;
    push_decimal(alloc, out, head.depth as u64)?;
    push_last_number(alloc, out, head.count)?;
    Ok(())
}

/// Appends the word of a derivation.
fn push_phase(out: &mut Vec<u8>, phase: Phase) -> Result<(), AllocError>
    ensures { OnOk result (out.new.items ≡ out.old.items ++ phase_word phase) }
{
    match phase {
        Phase::Base => out.push(b'b')?,
        Phase::Step => out.push(b'i')?,
    }
    Ok(())
}

/// Appends the first line of a derivation.
pub fn push_head(
    alloc: Global,
    out: &mut Vec<u8>,
    phase: Phase,
    count: u64,
) -> Result<(), AllocError>
    ensures { OnOk result (out.new.items ≡ out.old.items ++ text_of (head_words phase) count) }
{
    push_phase(out, phase)?;
    push_last_number(alloc, out, count)?;
    Ok(())
}

/// Appends the first line of a pair, or the last line.
pub fn push_section(alloc: Global, out: &mut Vec<u8>, section: Section) -> Result<(), AllocError>
    ensures { OnOk result (out.new.items ≡ out.old.items ++ text_of section_words section) }
{
    match section {
        Section::Single(number) => {
            push_pair(alloc, out, number)?;
            out.extend_from_slice(b" single\n")?;
            Ok(())
        }
        Section::Fixed(number) => {
            push_pair(alloc, out, number)?;
            out.extend_from_slice(b" fixed\n")?;
            Ok(())
        }
        Section::Depth(number, depth) => {
            push_pair(alloc, out, number)?;
            out.extend_from_slice(b" depth")?;
            push_last_number(alloc, out, depth as u64)?;
            Ok(())
        }
        Section::End => {
            out.extend_from_slice(b"end\n")?;
            Ok(())
        }
    }
}

fn push_pair(alloc: Global, out: &mut Vec<u8>, number: u64) -> Result<(), AllocError>
    ensures { OnOk result (out.new.items ≡ out.old.items ++ 112 ∷ (97 ∷ (105 ∷ (114 ∷ (32 ∷ decimal number))))) }
{
    out.extend_from_slice(b"pair ")?;
    push_decimal(alloc, out, number)?;
    Ok(())
}

/// Appends the line of a kept clause.
pub fn push_kept(alloc: Global, out: &mut Vec<u8>, clause: &InvClause) -> Result<(), AllocError>
    requires { IsKept true clause.now }
    ensures { OnOk result (out.new.items ≡ out.old.items ++ text_of kept_words clause.now) }
{
    out.push(b'k')?;
    push_states(alloc, out, clause.lits.as_slice())?;
    out.push(b'\n')?;
    Ok(())
}

/// Appends a space and the word of a literal, for each.
fn push_states(alloc: Global, out: &mut Vec<u8>, lits: &[StateLit]) -> Result<(), AllocError>
    requires { All (λ l. l.reg + 1 < 2 ^ 31) lits.now }
    ensures { OnOk result (out.new.items ≡ out.old.items ++ led (map state_word lits.now)) }
{
    for lit in lits {
        push_state(alloc, out, *lit)?;
    }
    Ok(())
}

/// Appends a space and the word of a literal.
fn push_state(alloc: Global, out: &mut Vec<u8>, lit: StateLit) -> Result<(), AllocError>
    requires { lit.reg + 1 < 2 ^ 31 }
    ensures { OnOk result (out.new.items ≡ out.old.items ++ 32 ∷ state_word lit) }
{
    out.push(b' ')?;
    push_lit(alloc, out, Lit::new((lit.reg + 1) as u32, lit.value))?;
    Ok(())
}

/// Appends the line of a step.
pub fn push_step(alloc: Global, out: &mut Vec<u8>, step: &DerivStep) -> Result<(), AllocError>
    ensures { OnOk result (out.new.items ≡ out.old.items ++ text_of step_words step.now) }
{
    out.extend_from_slice(b"s ")?;
    push_lits(alloc, out, step.clause.as_slice())?;
    out.extend_from_slice(b"0 ")?;
    push_hints(alloc, out, step.hints.as_slice())?;
    out.extend_from_slice(b"0\n")?;
    Ok(())
}
