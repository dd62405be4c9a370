//! Texts of which lines are made.
ghost use Rattle.std.specs.Prelude.{◌≡◌, ◌∷◌, [], ◌++◌, IfOk, OnOk, string_bytes, flat_map};
ghost use Rattle.sdcv_base.specs.Shown.{shown};
ghost use Rattle.wave_signals.specs.Labels.{label};
ghost use Rattle.witness_replay.specs.StimulusTexts.{line_of};
ghost use Rattle.shown_runs.specs.Rows as spec;

use sdcv_base::{Name, Seq};
use std::alloc::{AllocError, Global};
use wave_signals::{Signal, push_label};

/// A bit as a digit.
pub(crate) fn bit_text(bit: bool) -> &'static str
    ensures { result.now ≡ spec.bit_text bit }
{
    if bit { "1" } else { "0" }
}

/// The full name of a signal with its indices, as lines show it.
pub(crate) fn label_text(alloc: Global, signal: &Signal) -> Result<String, AllocError>
    ensures { IfOk result (λ text. string_bytes text ≡ shown (label signal.now)) }
{
    let mut label = Vec::new(alloc);
    push_label(alloc, &mut label, signal)?;
    let name = Name::from_vec(label);
    name.to_string(alloc)
}

/// Adds the line of a text.
pub(crate) fn add_text(lines: &mut Seq<Name>, text: String) -> Result<(), AllocError>
    ensures { OnOk result (lines.new ≡ lines.old ++ string_bytes text ∷ []) }
{
    lines.push(Name::from_vec(text.into_bytes()))?;
    Ok(())
}

/// The text of lines, each with its newline.
pub(crate) fn joined(alloc: Global, lines: &[Name]) -> Result<Vec<u8>, AllocError>
    ensures { IfOk result (λ text. text.items ≡ flat_map line_of lines.now) }
{
    let mut text = Vec::new(alloc);
    for line in lines {
        text.extend_from_slice(line.as_bytes())?;
        text.push(b'\n')?;
    }
    Ok(text)
}
