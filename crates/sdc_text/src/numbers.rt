//! Numbers of commands.
ghost use Rattle.std.specs.Prelude.{◌≡◌, ◌<◌, min, IsTrue};
ghost use Rattle.std.specs.List.{list_all};
ghost use Rattle.std.specs.Char as char_spec;
ghost use Rattle.std.specs.Str.Parse.{digits_value};
ghost use Rattle.sdc_text.specs.Numbers as spec;

use texts::{after, byte_at};

fn has_digits_alone(text: &[u8]) -> bool
    ensures { result ≡ list_all char_spec.is_ascii_digit text.now }
{
    text.iter().all(|byte| byte.is_ascii_digit())
}

/// Digits, with any zeros in front.
pub fn is_digits(text: &[u8]) -> bool
    ensures { result ≡ spec.is_digits text.now }
{
    !text.is_empty() && has_digits_alone(text)
}

/// Digits, and maybe one `-` before them.
pub fn is_whole(text: &[u8]) -> bool
    ensures { result ≡ spec.is_whole text.now }
{
    is_digits(text) || (byte_at(text, 0) == b'-' && is_digits(after(text, 1)))
}

/// Digits, and maybe one sign before them.
pub fn is_integer(text: &[u8]) -> bool
    ensures { result ≡ spec.is_integer text.now }
{
    is_whole(text) || (byte_at(text, 0) == b'+' && is_digits(after(text, 1)))
}

/// The value of digits, and 17 where it is more than that.
fn capped_value(text: &[u8]) -> u8
    requires { IsTrue (list_all char_spec.is_ascii_digit text.now) }
    ensures { result ≡ min 17 (digits_value 10 text.now) }
{
    let mut value: u8 = 0;
    for byte in text {
        value = (value * 10 + (*byte - b'0')).min(17);
    }
    value
}

/// The multiplier that a text is: a number from 1 to 16, with any zeros in front.
#[tactic(auto, unfolding(crate::specs::Numbers::multiplier))]
pub fn multiplier(text: &[u8]) -> Option<u8>
    ensures { result ≡ spec.multiplier text.now }
{
    if !is_digits(text) {
        return None;
    }
    let value = capped_value(text);
    if 1 <= value && value <= 16 {
        Some(value)
    } else {
        None
    }
}
