//! The three levels of operators.
ghost use Rattle.std.specs.Prelude.{◌≡◌, ◌≤◌, length};
ghost use Rattle.sdcv_base.specs.Cursors.{rest};
ghost use Rattle.texts.specs.Reads.{Passes};
ghost use Rattle.lib_func.specs.Operators as spec;

use crate::marks::skip_blanks;
use sdcv_base::Cursor;
use texts::is_letter;

/// The operators, from loosest to tightest.
#[derive(Clone, Copy)]
pub enum Level {
    Or,
    And,
    Xor,
}

/// A letter or `_`, `!`, `(`, `0` or `1`.
pub fn begins_operand(byte: u8) -> bool
    ensures { result ≡ spec.begins_operand byte }
{
    is_letter(byte) || matches!(byte, b'!' | b'(' | b'0' | b'1')
}

/// `+` or `|`.
pub fn is_or(byte: u8) -> bool
    ensures { result ≡ spec.is_or byte }
{
    byte == b'+' || byte == b'|'
}

/// `*` or `&`.
pub fn is_and(byte: u8) -> bool
    ensures { result ≡ spec.is_and byte }
{
    byte == b'*' || byte == b'&'
}

/// Passes the operator where the chain goes on, and else nothing.
#[tactic(auto, unfolding(crate::specs::Operators::after_operator))]
pub fn try_operator(c: &mut Cursor<'_>, level: Level) -> bool
    ensures value { Passes result (spec.after_operator level (rest c.old)) (rest c.old) (rest c.new) }
    ensures within { length (rest c.new) ≤ length (rest c.old) }
{
    let mut next = *c;
    let byte = skip_blanks(&mut next);
    let (goes_on, is_written) = match level {
        Level::Or => (is_or(byte), true),
        Level::And => {
            let is_written = is_and(byte);
            (is_written || begins_operand(byte), is_written)
        }
        Level::Xor => (byte == b'^', true),
    };
    if !goes_on {
        return false;
    }
    if is_written {
        next.bump();
    }
    *c = next;
    true
}
