//! Texts cut into lines, and lines into words, as those of a report are.
ghost use Rattle.std.specs.Prelude.{◌≡◌, IfOk, drop};
ghost use Rattle.report_rows.specs.Words as spec;
ghost use Rattle.report_rows.specs.Words.{texts};

use sdcv_base::{Name, read_decimal};
use std::alloc::{AllocError, Global};

/// The pieces of a text between its newlines.
pub(crate) fn pieces<'a>(alloc: Global, text: &'a [u8]) -> Result<Vec<&'a [u8]>, AllocError>
    ensures { IfOk result (λ all. texts all.items ≡ spec.pieces text.entry.now) }
{
    text.split(|byte| *byte == b'\n').collect(alloc)
}

/// The pieces of a text between its spaces.
pub(crate) fn cut<'a>(alloc: Global, line: &'a [u8]) -> Result<Vec<&'a [u8]>, AllocError>
    ensures { IfOk result (λ all. texts all.items ≡ spec.cut line.entry.now) }
{
    line.split(|byte| *byte == b' ').collect(alloc)
}

/// The word at a place, from 0, and past the end an empty one.
pub(crate) fn word_at<'a>(words: &[&'a [u8]], place: usize) -> &'a [u8]
    ensures { result.now ≡ spec.word_at (texts words.now) place }
{
    match words.get(place) {
        Some(word) => word,
        None => &[],
    }
}

/// Whether the word at a place is this one.
pub(crate) fn is_word(words: &[&[u8]], place: usize, word: &[u8]) -> bool
    ensures { result ≡ spec.is_word (texts words.now) place word.now }
{
    word_at(words, place) == word
}

/// The number at a place.
pub(crate) fn number_at(words: &[&[u8]], place: usize) -> Option<u64>
    ensures { result ≡ spec.number_in (spec.word_at (texts words.now) place) }
{
    number_in(word_at(words, place))
}

/// The number that a word is.
pub(crate) fn number_in(word: &[u8]) -> Option<u64>
    ensures { result ≡ spec.number_in word.now }
{
    let value = read_decimal(word, u64::MAX)?;
    Some(value)
}

/// Words as one text, with a space between each two.
pub(crate) fn joined(alloc: Global, words: &[&[u8]]) -> Result<Name, AllocError>
    ensures { IfOk result (λ text. text ≡ spec.joined (texts words.now)) }
{
    let mut out = Vec::new(alloc);
    for word in words {
        out.push(b' ')?;
        out.extend_from_slice(word)?;
    }
    Name::new(alloc, without_first(&out))
}

// What follows the first byte, where there is one.
fn without_first(text: &[u8]) -> &[u8]
    ensures { result.now ≡ drop 1 text.now }
{
    match text.split_first() {
        Some((_byte, rest)) => rest,
        None => text,
    }
}

/// The words from a place on.
pub(crate) fn rest_from<'s, 'a>(words: &'s [&'a [u8]], from: usize) -> &'s [&'a [u8]]
    ensures { texts result.now ≡ drop from (texts words.now) }
{
    &words[from.min(words.len())..]
}

/// The words from a place on, up to another place.
pub(crate) fn part<'s, 'a>(words: &'s [&'a [u8]], from: usize, upto: usize) -> &'s [&'a [u8]]
    ensures { texts result.now ≡ spec.part (texts words.now) from upto }
{
    let rest = rest_from(words, from);
    &rest[..upto.saturating_sub(from).min(rest.len())]
}
