//! Texts with carriage returns before their newlines.
ghost use Rattle.std.specs.Prelude.{◌≡◌, ◌≤◌, length, IfOk};
ghost use Rattle.sdc_words.specs.Lines as spec;

use std::alloc::{AllocError, Global};
use texts::{after, has_two};

/// Whether a carriage return stands here before a newline.
fn is_passed(text: &[u8]) -> bool
    ensures { result ≡ spec.is_passed text.now }
{
    has_two(text, b'\r', b'\n')
}

/// The text without each carriage return that stands before a newline.
pub fn cleaned(alloc: Global, text: &[u8]) -> Result<Vec<u8>, AllocError>
    ensures { IfOk result (λ clean. clean.items ≡ spec.cleaned text.now) }
{
    let mut clean = Vec::new(alloc);
    for i in 0..text.len() {
        if is_passed(after(text, i)) {
            continue;
        }
        clean.push(text[i])?;
    }
    Ok(clean)
}

/// Where the byte stands in the text that is at this place of the cleaned one. No place is after the text's end.
pub fn original(text: &[u8], place: usize) -> usize
    ensures value { result ≡ spec.original text.now place }
    ensures within { result ≤ length text.now }
{
    let mut left = place;
    for i in 0..text.len() {
        if is_passed(after(text, i)) {
            continue;
        }
        if left == 0 {
            return i;
        }
        left -= 1;
    }
    text.len()
}

/// How many newlines these bytes hold.
pub fn newlines(text: &[u8]) -> u64
    ensures value { result ≡ spec.newlines text.now }
    ensures within { result ≤ length text.now }
{
    text.iter().filter(|byte| **byte == b'\n').count() as u64
}
