//! Words in braces, and how many braces and brackets may be open.
ghost use Rattle.std.specs.Prelude.{◌≡◌, ◌≤◌, ◌<◌, ◌&&◌, not, length, IfOk, IsTrue};
ghost use Rattle.texts.specs.Fronts.{has_two};
ghost use Rattle.sdc_words.specs.Marks.{backslash, newline};
ghost use Rattle.sdc_words.specs.Braces as spec;

use crate::blanks::takes_next;
use sdcv_base::Name;
use std::alloc::{AllocError, Global};
use texts::{MOST_NESTED, after, has_two};

/// What comes of a byte of a word in braces.
#[derive(Clone, Copy)]
pub enum Turn {
    /// The word goes on: whether the next byte stands after a backslash, and how many braces and brackets are open then.
    GoesOn(bool, usize),
    /// It closes the word's first brace.
    Closes,
    /// It is a brace within as many as may be open.
    IsDeep,
}

/// How a word in braces ends. Lengths and places count the bytes after its first brace.
#[derive(Clone, Copy)]
pub enum Match {
    /// After so many bytes, of which the last is the `}` that matches.
    Closed(usize),
    /// Nowhere: a brace stands there within as many as may be open.
    Deep(usize),
    /// Nowhere: no `}` matches.
    Unclosed,
}

/// Whether a brace or a bracket may be opened where so many of both are open.
#[tactic(auto, unfolding(crate::specs::Braces::may_open, texts::specs::Rules::most_nested))]
pub fn may_open(opened: usize) -> bool
    ensures value { result ≡ spec.may_open opened }
    ensures few { IsTrue result → opened < MOST_NESTED }
{
    opened < MOST_NESTED
}

/// What comes of a brace within a word, where so many braces and brackets are open.
fn deeper(opened: usize) -> Turn
    ensures { result ≡ spec.deeper opened }
{
    if may_open(opened) {
        Turn::GoesOn(false, opened + 1)
    } else {
        Turn::IsDeep
    }
}

/// What comes of a byte where so many braces and brackets are open, and `own` of them with the word's first brace.
#[tactic(auto, unfolding(crate::specs::Braces::after_byte))]
fn after_byte(own: usize, is_escaped: bool, opened: usize, byte: u8) -> Turn
    ensures { result ≡ spec.after_byte own is_escaped opened byte }
{
    if is_escaped {
        Turn::GoesOn(false, opened)
    } else if byte == b'\\' {
        Turn::GoesOn(true, opened)
    } else if byte == b'{' {
        deeper(opened)
    } else if byte != b'}' {
        Turn::GoesOn(false, opened)
    } else if opened <= own {
        Turn::Closes
    } else {
        Turn::GoesOn(false, opened - 1)
    }
}

/// How a word ends whose bytes after its first brace these are, where so many braces and brackets are open with that one.
pub fn matched(opened: usize, text: &[u8]) -> Match
    ensures value { result ≡ spec.matched opened text.now }
    ensures within { spec.EndsWithin (length text.now) result }
{
    let own = opened;
    let mut is_escaped = false;
    let mut opened = opened;
    for i in 0..text.len() {
        match after_byte(own, is_escaped, opened, text[i]) {
            Turn::GoesOn(escapes, now) => {
                is_escaped = escapes;
                opened = now;
            }
            Turn::Closes => return Match::Closed(i + 1),
            Turn::IsDeep => return Match::Deep(i),
        }
    }
    Match::Unclosed
}

/// Whether a backslash that nothing takes stands here before a newline.
fn is_break(is_taken: bool, text: &[u8]) -> bool
    ensures { result ≡ (has_two backslash newline text.now && not is_taken) }
{
    has_two(text, b'\\', b'\n') && !is_taken
}

fn joined_byte(is_taken: bool, byte: u8) -> u8
    ensures { result ≡ spec.joined_byte is_taken byte }
{
    if byte == b'\n' && is_taken {
        b' '
    } else {
        byte
    }
}

/// The bytes of a word in braces: a backslash and the newline after it are one space.
pub fn joined(alloc: Global, text: &[u8]) -> Result<Name, AllocError>
    ensures { IfOk result (λ bytes. bytes ≡ spec.joined text.now) }
{
    let mut bytes = Vec::new(alloc);
    let mut is_taken = false;
    for i in 0..text.len() {
        if is_break(is_taken, after(text, i)) {
            is_taken = true;
            continue;
        }
        bytes.push(joined_byte(is_taken, text[i]))?;
        is_taken = takes_next(is_taken, text[i]);
    }
    Ok(Name::from_vec(bytes))
}
