//! Numbers that stand in a line.
ghost use Rattle.std.specs.Prelude.{◌≡◌, IfOk, string_bytes};
ghost use Rattle.refusal_words.specs.Numbers as spec;

use crate::fields::shown_text;
use sdcv_base::read_decimal;
use std::alloc::{AllocError, Global};

/// The number that the digits of a word stand for.
pub(crate) fn number_in(word: &[u8]) -> Option<u64>
    ensures { result ≡ spec.number_in word.now }
{
    let value = read_decimal(word, u64::MAX)?;
    Some(value)
}

/// The number that is one less, or the word itself where it is none.
pub(crate) fn less_one(alloc: Global, word: &[u8]) -> Result<String, AllocError>
    ensures { IfOk result (λ text. string_bytes text ≡ spec.less_one word.now) }
{
    match number_in(word) {
        Some(number) => {
            let less = number.saturating_sub(1);
            format!(in alloc; "{less}")
        }
        None => shown_text(alloc, word),
    }
}
