//! What a line says after its head.
ghost use Rattle.std.specs.Prelude.{◌≡◌, ◌==◌, ◌≤◌, IfOk, not, drop, length, string_bytes};
ghost use Rattle.std.specs.List.{prefix_len};
ghost use Rattle.sdcv_base.specs.Shown.{shown};
ghost use Rattle.refusal_words.specs.Fields as spec;

use sdcv_base::Name;
use std::alloc::{AllocError, Global};

/// Bytes as a printed line shows them.
pub(crate) fn shown_text(alloc: Global, bytes: &[u8]) -> Result<String, AllocError>
    ensures { IfOk result (λ text. string_bytes text ≡ shown bytes.now) }
{
    let name = Name::new(alloc, bytes)?;
    format!(in alloc; "{name}")
}

// How many bytes come before the first blank, or before the end.
fn word_len(text: &[u8]) -> usize
    ensures value { result ≡ prefix_len (λ b. not (b == 32)) text.now }
    ensures within { result ≤ length text.now }
{
    text.iter().take_while(|byte| **byte != b' ').count()
}

/// What stands before the first blank.
pub(crate) fn first_word(text: &[u8]) -> &[u8]
    ensures { result.now ≡ spec.first_word text.now }
{
    &text[..word_len(text)]
}

// What follows the first bytes of a text and the one after them.
fn after_blank(text: &[u8], len: usize) -> &[u8]
    requires { len ≤ length text.now }
    ensures { result.now ≡ drop 1 (drop len text.now) }
{
    let rest = &text[len..];
    match rest.split_first() {
        Some((_blank, rest)) => rest,
        None => rest,
    }
}

/// What stands after the first blank.
pub(crate) fn after_word(text: &[u8]) -> &[u8]
    ensures { result.now ≡ spec.after_word text.now }
{
    after_blank(text, word_len(text))
}

/// What follows the head of a line and the blank after it.
pub(crate) fn after_head<'a>(line: &'a [u8], head: &str) -> &'a [u8]
    ensures { result.now ≡ spec.after_head line.entry.now head.now }
{
    after_blank(line, head.len().min(line.len()))
}

/// The word that says which part refuses: the second of a line that begins with `refused`, and else the first.
pub(crate) fn part_word(line: &[u8]) -> &[u8]
    ensures { result.now ≡ spec.part_word line.now }
{
    if first_word(line) == b"refused".as_slice() {
        first_word(after_word(line))
    } else {
        first_word(line)
    }
}
