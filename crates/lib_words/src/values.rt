//! The values of simple attributes.
ghost use Rattle.std.specs.Prelude.{◌≡◌, ◌<◌, ◌≤◌, length, OnOk, IfOk};
ghost use Rattle.sdcv_base.specs.Cursors.{rest, text_of};
ghost use Rattle.texts.specs.Rules.{Reads};
ghost use Rattle.lib_words.specs.Reads.{Fails};
ghost use Rattle.lib_words.specs.Values as spec;
ghost use Rattle.lib_words.specs.Founds.{value_of};

use crate::blanks::{comment_len, skip_blanks};
use crate::faults::GroupFault;
use crate::groups::Value;
use crate::tokens::{is_next, refused, take_quoted};
use sdcv_base::{Cursor, Name};
use std::alloc::{AllocError, Global};
use texts::{after, byte_at, has_two, upto};

/// A value that still lies in the text.
#[derive(Clone, Copy)]
pub struct Found<'a> {
    text: &'a [u8],
    offset: usize,
    is_quoted: bool,
}

impl Found<'_> {
    ghost use Rattle.lib_words.specs.Founds.{value_of};

    /// Keeps a copy of what it says.
    pub fn keep(&self, alloc: Global) -> Result<Value, AllocError>
        ensures { IfOk result (λ v. v ≡ value_of self.now) }
    {
        let text = if self.is_quoted {
            Name::new(alloc, self.text)?
        } else {
            said(alloc, self.text)?
        };
        Ok(Value {
            text,
            offset: self.offset,
            is_quoted: self.is_quoted,
        })
    }
}

fn is_value(byte: u8) -> bool
    ensures { result ≡ spec.is_value byte }
{
    !(byte == b';' || byte == b'\n' || byte == b'}')
}

/// The length of a byte of a value or of a closed comment in it, and 0 where the value ends.
#[tactic(auto, unfolding(crate::specs::Values::value_piece))]
fn value_piece(text: &[u8]) -> usize
    ensures value { result ≡ spec.value_piece text.now }
    ensures within { result ≤ length text.now }
{
    if has_two(text, b'/', b'*') {
        comment_len(text)
    } else if text.is_empty() || has_two(text, b'\\', b'\n') || !is_value(byte_at(text, 0)) {
        0
    } else {
        1
    }
}

/// The length of the value without quotes that a text begins with.
fn value_len(text: &[u8]) -> usize
    ensures value { result ≡ spec.value_len text.now }
    ensures within { result ≤ length text.now }
{
    let mut len = 0;
    'pieces: loop {
        let piece = value_piece(after(text, len));
        if piece == 0 {
            return len;
        }
        len += piece;
    }
}

/// The bytes with a space for each closed comment.
fn spaced(alloc: Global, text: &[u8]) -> Result<Vec<u8>, AllocError>
    ensures { IfOk result (λ t. t.items ≡ spec.spaced (length text.now) text.now) }
{
    let mut found = Vec::new(alloc);
    let mut c = Cursor::new(text);
    'pieces: while let Some(byte) = c.peek() {
        let len = comment_len(c.rest());
        if len == 0 {
            found.push(byte)?;
            c.bump();
        } else {
            found.push(b' ')?;
            c.skip(len);
        }
    }
    Ok(found)
}

/// How long a run is without the white space at its end.
fn trimmed_len(run: &[u8]) -> usize
    ensures value { result ≡ spec.trimmed_len run.now }
    ensures within { result ≤ length run.now }
{
    run.trim_ascii_end().len()
}

/// What a value without quotes says: a comment counts as a space.
fn said(alloc: Global, text: &[u8]) -> Result<Name, AllocError>
    ensures { IfOk result (λ n. n ≡ spec.said text.now) }
{
    let bytes = spaced(alloc, text)?;
    let len = trimmed_len(bytes.as_slice());
    Name::new(alloc, upto(bytes.as_slice(), len))
}

/// Takes the value of a simple attribute, and the white space and comments after it.
#[tactic(auto, unfolding(crate::specs::Values::value_at))]
pub fn take_value<'a>(c: &mut Cursor<'a>) -> Result<Found<'a>, GroupFault>
    ensures value { Reads c.old c.new Fails value_of result spec.value_at }
    ensures text { text_of c.new ≡ text_of c.old }
    ensures within { OnOk result (length (rest c.new) ≤ length (rest c.old)) }
{
    if is_next(c, b'"') {
        quoted_value(c)
    } else {
        bare_value(c)
    }
}

fn quoted_value<'a>(c: &mut Cursor<'a>) -> Result<Found<'a>, GroupFault>
    requires { 0 < length (rest c.old) }
    ensures value { Reads c.old c.new Fails value_of result spec.quoted_value }
    ensures text { text_of c.new ≡ text_of c.old }
    ensures within { OnOk result (length (rest c.new) ≤ length (rest c.old)) }
{
    let mut opened = *c;
    opened.bump();
    let text = take_quoted(c)?;
    skip_blanks(c);
    Ok(Found {
        text,
        offset: opened.place(),
        is_quoted: true,
    })
}

fn bare_value<'a>(c: &mut Cursor<'a>) -> Result<Found<'a>, GroupFault>
    ensures value { Reads c.old c.new Fails value_of result spec.bare_value }
    ensures text { text_of c.new ≡ text_of c.old }
    ensures within { OnOk result (length (rest c.new) ≤ length (rest c.old)) }
{
    let text = c.rest();
    if has_two(text, b'/', b'*') {
        return Err(refused(c));
    }
    let offset = c.place();
    let len = value_len(text);
    c.skip(len);
    skip_blanks(c);
    Ok(Found {
        text: upto(text, len),
        offset,
        is_quoted: false,
    })
}
