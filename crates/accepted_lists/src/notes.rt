//! The entries on notes, and which notes they accept.
ghost use Rattle.std.specs.Prelude.{◌≡◌, IfOk};
ghost use Rattle.report_rows.specs.Words.{texts};
ghost use Rattle.accepted_lists.specs.Entries as spec;
ghost use Rattle.accepted_lists.specs.Accepted.{said_in, accepts_note};

use crate::cuts::{cut, is_word, joined, rest_from};
use crate::lists::AcceptedList;
use sdcv_base::Name;
use std::alloc::{AllocError, Global};

// After how many words those of a note begin.
fn place_length(words: &[&[u8]]) -> usize
    ensures { result ≡ spec.place_length (texts words.now) }
{
    if is_word(words, 0, b"command") && is_word(words, 2, b"line") {
        4
    } else if is_word(words, 0, b"line") {
        2
    } else {
        0
    }
}

// Whether these are the words of a note without its place.
fn says_note(words: &[&[u8]]) -> bool
    ensures { result ≡ spec.says_note (texts words.now) }
{
    1 < words.len()
        && (is_word(words, 0, b"warning")
            || is_word(words, 0, b"aside")
            || is_word(words, 0, b"unjudged")
            || (is_word(words, words.len() - 2, b"selects")
                && is_word(words, words.len() - 1, b"nothing")))
}

/// Whether the words of a line are those of a note.
pub(crate) fn is_note(words: &[&[u8]]) -> bool
    ensures { result ≡ spec.is_note (texts words.now) }
{
    says_note(rest_from(words, place_length(words)))
}

/// The words of a note without its place.
pub fn said_in(alloc: Global, text: &[u8]) -> Result<Name, AllocError>
    ensures { IfOk result (λ said. said ≡ said_in text.now) }
{
    let words = cut(alloc, text)?;
    joined(alloc, rest_from(&words, place_length(&words)))
}

/// Whether a list accepts a note: by its words, with or without its place.
pub fn accepts_note(alloc: Global, list: &AcceptedList, text: &Name) -> Result<bool, AllocError>
    ensures { IfOk result (λ accepts. accepts ≡ accepts_note list.now text.now) }
{
    let said = said_in(alloc, text.as_bytes())?;
    let notes = list.notes.as_slice();
    Ok(notes.iter().any(|note| *note == *text || *note == said))
}
