//! Pieces of quoted and bare words.
ghost use Rattle.std.specs.Prelude.{◌≡◌, ◌+◌, ◌<◌, ◌≤◌, length, drop, OnOk, IfSome, suc, false};
ghost use Rattle.std.specs.List.{prefix_len};
ghost use Rattle.sdcv_base.specs.Cursors.{rest, text_of};
ghost use Rattle.texts.specs.Rules.{Reads};
ghost use Rattle.sdc_words.specs.Reads.{Fails};
ghost use Rattle.sdc_words.specs.Pieces as spec;

use crate::blanks::{gap_len, is_next};
use crate::faults::{WordFault, refused};
use crate::words::Piece;
use sdcv_base::{Cursor, Name, Seq};
use std::alloc::Global;
use texts::{after, byte_at, has_two, is_word, upto, word_len};

/// What the bytes of a word stand in, and so where the word is over.
#[derive(Clone, Copy)]
pub enum Within {
    Command,
    Brackets,
    Quotes,
}

/// A newline, a `;` or the text's end.
pub fn ends_command(text: &[u8]) -> bool
    ensures { result ≡ spec.ends_command text.now }
{
    text.is_empty() || is_next(text, b'\n') || is_next(text, b';')
}

/// Whether a word is over here, where `is_slashed` tells that a backslash stands directly before.
#[tactic(auto, unfolding(crate::specs::Pieces::is_over))]
pub fn is_over(within: Within, is_slashed: bool, text: &[u8]) -> bool
    ensures { result ≡ spec.is_over within is_slashed text.now }
{
    match within {
        Within::Command => 0 < gap_len(text) || ends_command(text),
        Within::Brackets => 0 < gap_len(text) || is_next(text, b']'),
        Within::Quotes => is_next(text, b'"') && !is_slashed,
    }
}

/// A backslash and the byte after it.
#[tactic(auto, unfolding(crate::specs::Pieces::escaped_at))]
fn take_escaped(alloc: Global, c: &mut Cursor<'_>) -> Result<Piece, WordFault>
    requires { 0 < length (rest c.old) }
    ensures value { Reads c.old c.new Fails (λ p. p) result spec.escaped_at }
    ensures text { text_of c.new ≡ text_of c.old }
    ensures shorter { OnOk result (length (rest c.new) < length (rest c.old)) }
{
    let text = c.rest();
    if text.len() == 1 {
        c.skip(1);
        return Ok(Piece::Bytes(Name::new(alloc, text)?));
    }
    c.skip(2);
    Ok(Piece::Bytes(Name::new(alloc, upto(after(text, 1), 1))?))
}

/// How many bytes stand before the next `}`; `None` where the word is over before.
fn name_len(within: Within, text: &[u8]) -> Option<usize>
    ensures value { result ≡ spec.name_from within 0 false text.now }
    ensures within { IfSome result (λ n. n < length text.now) }
{
    let mut is_slashed = false;
    for i in 0..text.len() {
        if is_over(within, is_slashed, after(text, i)) {
            return None;
        }
        if text[i] == b'}' {
            return Some(i);
        }
        is_slashed = text[i] == b'\\';
    }
    None
}

/// `${`, a name, `}`.
#[tactic(auto, unfolding(crate::specs::Pieces::braced_name_at))]
fn take_braced_name(alloc: Global, c: &mut Cursor<'_>, within: Within) -> Result<Piece, WordFault>
    requires { 1 < length (rest c.old) }
    ensures value { Reads c.old c.new Fails (λ p. p) result (spec.braced_name_at within) }
    ensures text { text_of c.new ≡ text_of c.old }
    ensures shorter { OnOk result (length (rest c.new) < length (rest c.old)) }
{
    let text = after(c.rest(), 2);
    let Some(len) = name_len(within, text) else {
        return Err(refused(c));
    };
    c.skip(len + 3);
    Ok(Piece::Variable(Name::new(alloc, upto(text, len))?))
}

/// `$` and the longest name after it.
#[tactic(auto, unfolding(crate::specs::Pieces::name_at))]
fn take_name(alloc: Global, c: &mut Cursor<'_>) -> Result<Piece, WordFault>
    requires { 0 < length (rest c.old) }
    ensures value { Reads c.old c.new Fails (λ p. p) result spec.name_at }
    ensures text { text_of c.new ≡ text_of c.old }
    ensures shorter { OnOk result (length (rest c.new) < length (rest c.old)) }
{
    let text = after(c.rest(), 1);
    let len = word_len(text);
    c.skip(len + 1);
    Ok(Piece::Variable(Name::new(alloc, upto(text, len))?))
}

fn is_index(byte: u8) -> bool
    ensures { result ≡ spec.is_index byte }
{
    byte.is_ascii_digit() || byte == b'*' || byte == b'?' || byte == b':'
}

fn index_len(text: &[u8]) -> usize
    ensures value { result ≡ prefix_len spec.is_index text.now }
    ensures within { result ≤ length text.now }
{
    text.iter().take_while(|byte| is_index(**byte)).count()
}

/// An index in brackets, which stays as it is.
#[tactic(auto, unfolding(crate::specs::Pieces::index_at))]
fn take_index(alloc: Global, c: &mut Cursor<'_>) -> Result<Piece, WordFault>
    requires { 0 < length (rest c.old) }
    ensures value { Reads c.old c.new Fails (λ p. p) result spec.index_at }
    ensures text { text_of c.new ≡ text_of c.old }
    ensures shorter { OnOk result (length (rest c.new) < length (rest c.old)) }
{
    let text = c.rest();
    let len = index_len(after(text, 1));
    if len == 0 || !is_next(after(text, len + 1), b']') {
        return Err(refused(c));
    }
    c.skip(len + 2);
    Ok(Piece::Bytes(Name::new(alloc, upto(text, len + 2))?))
}

fn is_parting(byte: u8) -> bool
    ensures { result ≡ spec.is_parting byte }
{
    byte == b' ' || byte == b'\t' || byte == b'\n' || byte == b';' || byte == b']' || byte == b'"'
}

fn is_plain(byte: u8) -> bool
    ensures { result ≡ spec.is_plain byte }
{
    !(is_parting(byte) || byte == b'\\' || byte == b'$' || byte == b'[')
}

fn plain_len(text: &[u8]) -> usize
    ensures value { result ≡ prefix_len spec.is_plain text.now }
    ensures within { result ≤ length text.now }
{
    text.iter().take_while(|byte| is_plain(**byte)).count()
}

/// The bytes up to one that parts words or begins a piece, or else that one.
#[tactic(auto, unfolding(crate::specs::Pieces::plain_at))]
fn take_plain(alloc: Global, c: &mut Cursor<'_>) -> Result<Piece, WordFault>
    requires { 0 < length (rest c.old) }
    ensures value { Reads c.old c.new Fails (λ p. p) result spec.plain_at }
    ensures text { text_of c.new ≡ text_of c.old }
    ensures shorter { OnOk result (length (rest c.new) < length (rest c.old)) }
{
    let text = c.rest();
    let len = plain_len(text);
    if len == 0 {
        c.skip(1);
        return Ok(Piece::Bytes(Name::new(alloc, upto(text, 1))?));
    }
    c.skip(len);
    Ok(Piece::Bytes(Name::new(alloc, upto(text, len))?))
}

/// Takes a piece of a word that is not over.
#[tactic(auto, unfolding(crate::specs::Pieces::piece_at))]
pub fn take_piece(alloc: Global, c: &mut Cursor<'_>, within: Within) -> Result<Piece, WordFault>
    requires { 0 < length (rest c.old) }
    ensures value { Reads c.old c.new Fails (λ p. p) result (spec.piece_at within) }
    ensures text { text_of c.new ≡ text_of c.old }
    ensures shorter { OnOk result (length (rest c.new) < length (rest c.old)) }
{
    let text = c.rest();
    if has_two(text, b'\\', b'\n') {
        c.skip(2);
        return Ok(Piece::Bytes(Name::new(alloc, b" ")?));
    }
    if is_next(text, b'\\') {
        return take_escaped(alloc, c);
    }
    if has_two(text, b'$', b'{') {
        return take_braced_name(alloc, c, within);
    }
    if is_next(text, b'$') && is_word(byte_at(text, 1)) {
        return take_name(alloc, c);
    }
    if is_next(text, b'[') {
        return take_index(alloc, c);
    }
    take_plain(alloc, c)
}

/// Takes the pieces up to where the word is over, and adds them to those found before.
pub fn more_pieces(
    alloc: Global,
    c: &mut Cursor<'_>,
    within: Within,
    found: &mut Seq<Piece>,
) -> Result<(), WordFault>
    ensures value { Reads c.old c.new Fails (λ _. found.new) result (spec.pieces_after within found.old) }
    ensures text { text_of c.new ≡ text_of c.old }
    ensures within { OnOk result (length (rest c.new) ≤ length (rest c.old)) }
{
    let mut is_slashed = false;
    'pieces: loop {
        let text = c.rest();
        if is_over(within, is_slashed, text) {
            return Ok(());
        }
        if text.is_empty() {
            return Err(refused(c));
        }
        is_slashed = has_two(text, b'\\', b'\\');
        let piece = take_piece(alloc, c, within)?;
        found.push(piece)?;
    }
}
