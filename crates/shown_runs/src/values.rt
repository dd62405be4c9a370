//! Values of several bits as texts.
ghost use Rattle.std.specs.Prelude.{◌≡◌, ◌++◌, IfOk, OnOk, codes};
ghost use Rattle.shown_runs.specs.Values as spec;

use sdcv_base::Name;
use std::alloc::{AllocError, Global};

/// The number of the last four bits, this digit having come.
fn next_four(four: usize, digit: u8) -> usize
    ensures { result ≡ spec.next_four four digit }
{
    four % 8 * 2 + if digit == b'1' { 1 } else { 0 }
}

fn hex_digit(four: usize) -> u8
    ensures { result ≡ spec.hex_digit four }
{
    b"0123456789abcdef".get(four).copied().unwrap_or(b'?')
}

/// Appends the digit of four bits where so many digits to come need no other one.
fn push_four(text: &mut Vec<u8>, left: usize, four: usize) -> Result<(), AllocError>
    ensures { OnOk result (text.new.items ≡ text.old.items ++ spec.four_text left four) }
{
    if left % 4 == 0 {
        text.push(hex_digit(four))?;
    }
    Ok(())
}

/// Appends the hexadecimal digits of bits.
fn push_hexed(text: &mut Vec<u8>, digits: &[u8]) -> Result<(), AllocError>
    ensures { OnOk result (text.new.items ≡ text.old.items ++ spec.hexed 0 digits.now) }
{
    let mut four: usize = 0;
    let mut left = digits.len();
    for digit in digits {
        four = next_four(four, *digit);
        left = left.saturating_sub(1);
        push_four(text, left, four)?;
    }
    Ok(())
}

fn has_mark(digits: &[u8]) -> bool
    ensures { result ≡ spec.has_mark digits.now }
{
    digits.iter().any(|digit| *digit == b'x')
}

fn hex_text(alloc: Global, digits: &[u8]) -> Result<Vec<u8>, AllocError>
    ensures { IfOk result (λ text. text.items ≡ codes "0x" ++ spec.hexed 0 digits.now) }
{
    let mut text = Vec::from_slice(alloc, b"0x")?;
    push_hexed(&mut text, digits)?;
    Ok(text)
}

fn bits_text(alloc: Global, digits: &[u8]) -> Result<Vec<u8>, AllocError>
    ensures { IfOk result (λ text. text.items ≡ codes "0b" ++ digits.now) }
{
    let mut text = Vec::from_slice(alloc, b"0b")?;
    text.extend_from_slice(digits)?;
    Ok(text)
}

/// Many bits by hexadecimal digits, or each where one is an `x`.
fn wide_text(alloc: Global, digits: &[u8]) -> Result<Vec<u8>, AllocError>
    ensures { IfOk result (λ text. text.items ≡ spec.wide_text digits.now) }
{
    if has_mark(digits) {
        bits_text(alloc, digits)
    } else {
        hex_text(alloc, digits)
    }
}

/// A value whose bits have these digits, as it is shown: more than 4 of them with `0x` or `0b` in front.
#[tactic(auto, unfolding(crate::specs::Values::value_text))]
pub(crate) fn value_text(alloc: Global, digits: &[u8]) -> Result<Name, AllocError>
    ensures { IfOk result (λ text. text ≡ spec.value_text digits.now) }
{
    if digits.len() > 4 {
        Ok(Name::from_vec(wide_text(alloc, digits)?))
    } else {
        Name::new(alloc, digits)
    }
}
