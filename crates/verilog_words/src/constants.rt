//! Sized constants.
ghost use Rattle.std.specs.Prelude.{◌≡◌, ◌<◌, ◌≤◌, ◌^◌, length, IfOk, IfSome, IsSome, OnOk};
ghost use Rattle.std.specs.List.{list_any, prefix_len};
ghost use Rattle.sdcv_base.specs.Cursors.{rest, text_of};
ghost use Rattle.texts.specs.Fronts.{first};
ghost use Rattle.texts.specs.Rules.{Reads};
ghost use Rattle.verilog_words.specs.Reads.{Fails};
ghost use Rattle.verilog_words.specs.Constants as spec;

use crate::blanks::skip_blanks;
use crate::faults::SyntaxFault;
use crate::marks::{is_next, refused};
use crate::numbers::{digits_len, value_below};
use sdcv_base::{Cursor, Seq};
use std::alloc::{AllocError, Global};
use texts::{byte_at, upto};

/// The base in which the digits of a constant are written.
#[derive(Clone, Copy)]
enum Base {
    Binary,
    Octal,
    Decimal,
    Hex,
}

impl Base {
    fn radix(self) -> u32
        ensures value { result ≡ spec.radix self }
        ensures least { 2 ≤ result }
        ensures most { result ≤ 16 }
    {
        match self {
            Base::Binary => 2,
            Base::Octal => 8,
            Base::Decimal => 10,
            Base::Hex => 16,
        }
    }

    fn has_digit(self, byte: u8) -> bool
        ensures { result ≡ spec.is_digit_of self byte }
    {
        char::from(byte).is_digit(self.radix())
    }
}

/// Takes a constant: its bits, the most significant first, as many as its size says.
#[tactic(auto, unfolding(crate::specs::Constants::constant_at))]
pub fn take_constant(alloc: Global, c: &mut Cursor<'_>) -> Result<Seq<bool>, SyntaxFault>
    ensures value { Reads c.old c.new Fails (λ bits. bits) result spec.constant_at }
    ensures text { text_of c.new ≡ text_of c.old }
    ensures shorter { OnOk result (length (rest c.new) < length (rest c.old)) }
{
    let size = take_size(c)?;
    let base = take_base(c)?;
    take_digits(alloc, c, size, base)
}

/// Takes a size, and nothing after it.
#[tactic(auto, unfolding(crate::specs::Constants::size_at))]
fn take_size(c: &mut Cursor<'_>) -> Result<u32, SyntaxFault>
    ensures value { Reads c.old c.new Fails (λ n. n) result spec.size_at }
    ensures most { IfOk result (λ n. n ≤ 64) }
    ensures text { text_of c.new ≡ text_of c.old }
    ensures within { OnOk result (length (rest c.new) ≤ length (rest c.old)) }
{
    let text = c.rest();
    let len = digits_len(text);
    let Some(size) = value_below(10, upto(text, len), 65) else {
        return Err(refused(c));
    };
    if size == 0 {
        return Err(refused(c));
    }
    c.skip(len);
    Ok(size as u32)
}

/// The base of a letter.
#[tactic(auto, unfolding(crate::specs::Constants::base_of))]
fn base_of(letter: u8) -> Option<Base>
    ensures value { result ≡ spec.base_of letter }
    ensures some { IsSome result → 0 < letter }
{
    let letter = letter.to_ascii_lowercase();
    if letter == b'b' {
        Some(Base::Binary)
    } else if letter == b'o' {
        Some(Base::Octal)
    } else if letter == b'd' {
        Some(Base::Decimal)
    } else if letter == b'h' {
        Some(Base::Hex)
    } else {
        None
    }
}

/// The base of the letter that comes next.
#[tactic(auto, using(crate::proofs::FrontLemmas::first_some))]
fn next_base(c: &Cursor<'_>) -> Option<Base>
    ensures value { result ≡ spec.base_of (first (rest c.now)) }
    ensures some { IsSome result → 0 < length (rest c.now) }
{
    base_of(byte_at(c.rest(), 0))
}

/// Takes `'` and a base, and nothing after them.
#[tactic(auto, unfolding(crate::specs::Constants::base_at))]
fn take_base(c: &mut Cursor<'_>) -> Result<Base, SyntaxFault>
    ensures value { Reads c.old c.new Fails (λ b. b) result spec.base_at }
    ensures text { text_of c.new ≡ text_of c.old }
    ensures shorter { OnOk result (length (rest c.new) < length (rest c.old)) }
{
    if !is_next(c, b'\'') {
        return Err(refused(c));
    }
    c.bump();
    let Some(base) = next_base(c) else {
        return Err(refused(c));
    };
    c.bump();
    Ok(base)
}

fn is_digit_or_underscore(base: Base, byte: u8) -> bool
    ensures { result ≡ spec.is_digit_or_underscore base byte }
{
    base.has_digit(byte) || byte == b'_'
}

fn run_len(text: &[u8], base: Base) -> usize
    ensures value { result ≡ prefix_len (spec.is_digit_or_underscore base) text.now }
    ensures within { result ≤ length text.now }
{
    text.iter()
        .take_while(|byte| is_digit_or_underscore(base, **byte))
        .count()
}

fn has_digit(run: &[u8], base: Base) -> bool
    ensures { result ≡ list_any (spec.is_digit_of base) run.now }
{
    run.iter().any(|byte| base.has_digit(*byte))
}

/// So many bits of a number, the most significant first.
fn bits_of(alloc: Global, size: u32, value: u64) -> Result<Seq<bool>, AllocError>
    requires { size ≤ 64 }
    ensures { IfOk result (λ bits. bits ≡ spec.bits_of size value) }
{
    let mut bits = Seq::new(alloc);
    let mut left = size;
    'bits: while left > 0 {
        left -= 1;
        bits.push((value >> left) % 2 == 1)?;
    }
    Ok(bits)
}

/// Takes the digits of a constant.
#[tactic(auto, unfolding(crate::specs::Constants::digits_at))]
fn take_digits(
    alloc: Global,
    c: &mut Cursor<'_>,
    size: u32,
    base: Base,
) -> Result<Seq<bool>, SyntaxFault>
    requires { size ≤ 64 }
    ensures value { Reads c.old c.new Fails (λ bits. bits) result (spec.digits_at size base) }
    ensures text { text_of c.new ≡ text_of c.old }
    ensures within { OnOk result (length (rest c.new) ≤ length (rest c.old)) }
{
    let text = c.rest();
    let len = run_len(text, base);
    let run = upto(text, len);
    if !has_digit(run, base) {
        return Err(refused(c));
    }
    let Some(value) = value_below(base.radix(), run, 1 << size) else {
        return Err(refused(c));
    };
    let bits = bits_of(alloc, size, value)?;
    c.skip(len);
    skip_blanks(c, false);
    Ok(bits)
}
