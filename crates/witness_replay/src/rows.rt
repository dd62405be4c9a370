//! Bits as digits, in the lines of a block.
ghost use Rattle.std.specs.Prelude.{◌≡◌, ◌≢◌, ◌==◌, ◌||◌, Bool, List, ◌++◌, length, map, IfOk, MatchOption};
ghost use Rattle.std.specs.List.{list_all};
ghost use Rattle.witness_replay.specs.StimulusTexts.{digits_of};

use sdcv_base::Seq;
use std::alloc::{AllocError, Global};

/// Whether each byte is the digit 0 or 1.
fn are_binary(text: &[u8]) -> bool
    ensures { result ≡ list_all (λ b. b == 48 || b == 49) text.now }
{
    text.iter().all(|byte| *byte == b'0' || *byte == b'1')
}

/// The bits that are true where the digit is 1.
fn ones(alloc: Global, text: &[u8]) -> Result<Vec<bool>, AllocError>
    ensures { IfOk result (λ bits. bits.items ≡ map (λ b. b == 49) text.now) }
{
    text.iter().map(|byte| *byte == b'1').collect(alloc)
}

/// The bits of these digits, where they are digits of bits; `-` are no bits.
#[tactic(auto, using(crate::proofs::DigitLemmas::digits_are, crate::proofs::DigitLemmas::digits_of_ones))]
fn bits_of(alloc: Global, text: &[u8]) -> Result<Option<Seq<bool>>, AllocError>
    ensures { IfOk result (λ o. MatchOption o ((bits : List Bool) → text.now ≢ digits_of bits) (λ bits. text.now ≡ digits_of bits)) }
{
    if text == b"-".as_slice() {
        return Ok(Some(Seq::new(alloc)));
    }
    if text.is_empty() || !are_binary(text) {
        return Ok(None);
    }
    Ok(Some(Seq::from_vec(ones(alloc, text)?)))
}

/// The bits of a line that begins with this word.
pub fn row_bits(alloc: Global, line: &[u8], word: &[u8]) -> Result<Option<Seq<bool>>, AllocError>
    ensures { IfOk result (λ o. MatchOption o ((bits : List Bool) → line.now ≢ word.now ++ digits_of bits) (λ bits. line.now ≡ word.now ++ digits_of bits)) }
{
    match line.strip_prefix(word) {
        Some(digits) => bits_of(alloc, digits),
        None => Ok(None),
    }
}
