//! Decimal numbers.
ghost use Rattle.std.specs.Prelude.{◌≡◌, ◌<◌, ◌≤◌, ◌+◌, ◌*◌, ◌^◌, if◌then◌else◌, length, OnOk, MatchOption};
ghost use Rattle.std.specs.Char.{digit_value, is_ascii_digit, is_digit};
ghost use Rattle.std.specs.List.{prefix_len};
ghost use Rattle.sdcv_base.specs.Cursors.{rest, text_of};
ghost use Rattle.texts.specs.Rules.{Reads};
ghost use Rattle.verilog_words.specs.Reads.{Fails};
ghost use Rattle.verilog_words.specs.Numbers as spec;

use crate::blanks::skip_blanks;
use crate::faults::SyntaxFault;
use crate::marks::refused;
use sdcv_base::Cursor;
use texts::{byte_at, upto};

/// How many decimal digits a text begins with.
pub(crate) fn digits_len(text: &[u8]) -> usize
    ensures value { result ≡ prefix_len is_ascii_digit text.now }
    ensures within { result ≤ length text.now }
{
    text.iter().take_while(|byte| byte.is_ascii_digit()).count()
}

/// The value with one more byte of the run, which counts where it is a digit.
fn grown(value: u128, radix: u32, byte: u8) -> u128
    requires value { value < 2 ^ 64 }
    requires least { 2 ≤ radix }
    requires most { radix ≤ 36 }
    ensures { result ≡ (if is_digit byte radix then value * radix + digit_value byte else value) }
{
    match char::from(byte).to_digit(radix) {
        Some(digit) => value * u128::from(radix) + u128::from(digit),
        None => value,
    }
}

/// The number that the digits of a run write, where it is below the limit. Other bytes count for nothing.
pub(crate) fn value_below(radix: u32, run: &[u8], limit: u128) -> Option<u64>
    requires least { 2 ≤ radix }
    requires most { radix ≤ 36 }
    requires some { 0 < limit }
    requires limit { limit ≤ 2 ^ 64 }
    ensures { MatchOption result (limit ≤ spec.run_value radix run.now) (λ v. (v ≡ spec.run_value radix run.now) × (v < limit)) }
{
    let mut value: u128 = 0;
    for byte in run {
        value = grown(value, radix, *byte);
        if value >= limit {
            return None;
        }
    }
    Some(value as u64)
}

/// Whether a digit comes next, with which a number or a constant begins.
pub fn begins_number(c: &Cursor<'_>) -> bool
    ensures { result ≡ spec.begins_number (rest c.now) }
{
    byte_at(c.rest(), 0).is_ascii_digit()
}

/// Takes a decimal number.
#[tactic(auto, unfolding(crate::specs::Numbers::number_at))]
pub fn take_number(c: &mut Cursor<'_>) -> Result<u16, SyntaxFault>
    ensures value { Reads c.old c.new Fails (λ n. n) result spec.number_at }
    ensures text { text_of c.new ≡ text_of c.old }
    ensures shorter { OnOk result (length (rest c.new) < length (rest c.old)) }
{
    let text = c.rest();
    let len = digits_len(text);
    if len == 0 {
        return Err(refused(c));
    }
    let Some(value) = value_below(10, upto(text, len), 65_536) else {
        return Err(refused(c));
    };
    c.skip(len);
    skip_blanks(c, false);
    Ok(value as u16)
}
