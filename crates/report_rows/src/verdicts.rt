//! Verdicts and modes by their words.
ghost use Rattle.std.specs.Prelude.{◌≡◌};
ghost use Rattle.report_rows.specs.Rows as spec;

use crate::reports::Word;

#[tactic(auto, unfolding(crate::specs::Rows::verdict_in))]
pub(crate) fn verdict_in(word: &[u8]) -> Option<Word>
    ensures { result ≡ spec.verdict_in word.now }
{
    if word == b"justified".as_slice() {
        Some(Word::Justified)
    } else if word == b"refuted".as_slice() {
        Some(Word::Refuted)
    } else if word == b"undecided".as_slice() {
        Some(Word::Undecided)
    } else {
        None
    }
}

/// Whether claims are judged with hazards.
#[tactic(auto, unfolding(crate::specs::Rows::hazard_in))]
pub(crate) fn hazard_in(word: &[u8]) -> Option<bool>
    ensures { result ≡ spec.hazard_in word.now }
{
    if word == b"hazard".as_slice() {
        Some(true)
    } else if word == b"plain".as_slice() {
        Some(false)
    } else {
        None
    }
}
