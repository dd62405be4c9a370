//! The line of a step.
ghost use Rattle.std.specs.Prelude.{◌≡◌, false, IfOk, IfErr, OnOk};
ghost use Rattle.cert_words.specs.Lines.{Spells, IsLineStop};
ghost use Rattle.cert_lines.specs.Kinds.{step_words, IsStep};

use cert_words::{Stop, Words, take_end, take_hints, take_lits, take_word};
use proof_log::{Clause, DerivStep};
use std::alloc::Global;

/// The step of a line.
pub fn read_step(alloc: Global, line: &[u8], cut: bool) -> Result<DerivStep, Stop>
    ensures ok { IfOk result (Spells IsStep step_words line.now) }
    ensures whole { OnOk result (cut ≡ false) }
    ensures err { IfErr result (IsLineStop IsStep step_words cut line.now) }
{
    let mut words = Words::new(line, cut);
    take_word(&mut words, b"s")?;
    let lits = take_lits(alloc, &mut words)?;
    let hints = take_hints(alloc, &mut words)?;
    take_end(&words)?;
    Ok(DerivStep {
        clause: Clause { lits },
        hints,
    })
}
