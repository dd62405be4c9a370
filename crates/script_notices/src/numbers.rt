//! The number of a `-hold` command, as it is written.
ghost use Rattle.std.specs.Prelude.{◌≡◌, min};
ghost use Rattle.std.specs.Char as char_spec;
ghost use Rattle.std.specs.Str.Parse.{digits_value};
ghost use Rattle.script_notices.specs.Companions as spec;

use sdcv_base::Kind;
use texts::byte_at;

/// The value of a digit or of a letter, and 36 of another byte.
fn digit_value(byte: u8) -> u32
    ensures { result ≡ char_spec.digit_value byte }
{
    char::from(byte).to_digit(36).unwrap_or(36)
}

/// The value of digits, and 256 where it is more than that.
fn capped_value(number: &[u8]) -> u32
    ensures { result ≡ min 256 (digits_value 10 number.now) }
{
    let mut value: u32 = 0;
    for byte in number {
        value = (value * 10 + digit_value(*byte)).min(256);
    }
    value
}

/// The value of a hold number, 0 of one with a `-`, and at most 256.
pub(crate) fn hold_value(number: &[u8]) -> u32
    ensures { result ≡ spec.hold_value number.now }
{
    if byte_at(number, 0) == b'-' {
        0
    } else {
        capped_value(number)
    }
}

/// Whether it is a multicycle path with a multiplier above the number.
pub(crate) fn is_above(number: u32, kind: Kind) -> bool
    ensures { result ≡ spec.is_above number kind }
{
    match kind {
        Kind::False => false,
        Kind::Multi(k) => number < u32::from(k),
    }
}
