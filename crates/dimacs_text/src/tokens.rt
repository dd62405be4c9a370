//! What the words of a line say.
ghost use Rattle.std.specs.Prelude.{◌≡◌, ◌++◌, ◌∷◌, [], true, length, filter, IfOk, OnOk, map};
ghost use Rattle.std.specs.List.{slice_split};
ghost use Rattle.dimacs_text.specs.Tokens as spec;

use sdcv_base::read_decimal;
use std::alloc::{AllocError, Global};

/// The greatest number of variables: 2^31 - 1.
const MOST_VARS: u64 = 2_147_483_647;

/// The header, or a word of a clause.
#[derive(Clone, Copy)]
pub(crate) enum Token {
    /// The line `p cnf VARS CLAUSES`.
    Header { vars: u32, told: u64 },
    /// A line that begins as the header does and is none.
    NoHeader,
    /// A number, which is positive where it has no `-`.
    Number { positive: bool, var: u64 },
    /// A word that is no number.
    NoNumber,
}

/// The lines of a text.
pub(crate) fn lines_of(alloc: Global, text: &[u8]) -> Result<Vec<&[u8]>, AllocError>
    ensures { IfOk result (λ lines. map (λ line. line.now) lines.items ≡ spec.lines_of text.entry.now) }
{
    text.split(|byte| *byte == b'\n').collect(alloc)
}

fn is_blank(byte: u8) -> bool
    ensures { result ≡ spec.is_blank byte }
{
    byte == b' ' || byte == b'\t' || byte == b'\r'
}

/// The parts of a line between its blanks, some of which are empty.
fn parts_of(alloc: Global, line: &[u8]) -> Result<Vec<&[u8]>, AllocError>
    ensures { IfOk result (λ parts. map (λ part. part.now) parts.items ≡ slice_split spec.is_blank line.entry.now) }
{
    line.split(|byte| is_blank(*byte)).collect(alloc)
}

/// Puts a part last where it is a word.
fn push_word<'a>(words: &mut Vec<&'a [u8]>, part: &'a [u8]) -> Result<(), AllocError>
    ensures { OnOk result (map (λ word. word.now) words.new.items ≡ map (λ word. word.now) words.old.items ++ filter spec.is_word (part.now ∷ [])) }
{
    if !part.is_empty() {
        words.push(part)?;
    }
    Ok(())
}

/// The words of a line.
pub(crate) fn words_of(alloc: Global, line: &[u8]) -> Result<Vec<&[u8]>, AllocError>
    ensures { IfOk result (λ words. map (λ word. word.now) words.items ≡ spec.words_of line.entry.now) }
{
    let parts = parts_of(alloc, line)?;
    let mut words = Vec::new(alloc);
    for place in 0..parts.len() {
        push_word(&mut words, parts[place])?;
    }
    Ok(words)
}

/// Whether words are a header's but for its numbers.
fn is_header(words: &[&[u8]]) -> bool
    ensures is { result ≡ spec.is_header (map (λ word. word.now) words.entry.now) }
    ensures four { result ≡ true → length words.entry.now ≡ 4 }
{
    words.len() == 4 && words[0] == b"p".as_slice() && words[1] == b"cnf".as_slice()
}

/// What the words of a line say that begins as the header does.
pub(crate) fn header(words: &[&[u8]]) -> Token
    ensures is { result ≡ spec.header (map (λ word. word.now) words.entry.now) }
    ensures few { spec.IsFew result }
{
    if is_header(words) {
        return counts(words[2], words[3]);
    }
    Token::NoHeader
}

/// The header of these two numbers.
fn counts(vars: &[u8], told: &[u8]) -> Token
    ensures is { result ≡ spec.counts vars.now told.now }
    ensures few { spec.IsFew result }
{
    match (read_decimal(vars, MOST_VARS), read_decimal(told, u64::MAX)) {
        (Some(vars), Some(told)) => Token::Header {
            vars: vars as u32,
            told,
        },
        _ => Token::NoHeader,
    }
}

/// What a word of a clause says.
pub(crate) fn number(word: &[u8]) -> Token
    ensures is { result ≡ spec.number word.now }
    ensures few { spec.IsFew result }
{
    match word.strip_prefix(b"-") {
        Some(digits) => signed(false, digits),
        None => signed(true, word),
    }
}

/// The number of these digits.
fn signed(positive: bool, digits: &[u8]) -> Token
    ensures is { result ≡ spec.signed positive digits.now }
    ensures few { spec.IsFew result }
{
    match read_decimal(digits, u64::MAX) {
        Some(var) => Token::Number { positive, var },
        None => Token::NoNumber,
    }
}
