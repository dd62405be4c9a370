//! Whether a text is a function, byte by byte.
ghost use Rattle.std.specs.Prelude.{◌≡◌, ◌+◌, ◌<◌, ◌≤◌, ◌^◌, IfSome, is_some};
ghost use Rattle.lib_func.specs.Functions.{function_of};
ghost use Rattle.lib_func.specs.Scans as spec;

use crate::operators::{begins_operand, is_and, is_or};
use lib_words::is_blank;
use texts::{after, byte_at, is_letter, is_word};

/// Where a byte of a function stands, and how many parentheses are open there.
#[derive(Clone, Copy)]
enum Spot {
    /// An operand has to come.
    Before(usize),
    /// A name may go on.
    Name(usize),
    /// An operand has ended.
    After(usize),
}

fn is_operator(byte: u8) -> bool
    ensures { result ≡ spec.is_operator byte }
{
    is_or(byte) || is_and(byte) || byte == b'^'
}

/// After the first byte of an operand.
#[tactic(auto, unfolding(crate::specs::Scans::begun))]
fn begun(opened: usize, byte: u8) -> Option<Spot>
    requires { opened + 1 < 2 ^ 64 }
    ensures value { result ≡ spec.begun opened byte }
    ensures opened { IfSome result (λ spot. spec.opened spot ≤ opened + 1) }
{
    if byte == b'0' || byte == b'1' {
        Some(Spot::After(opened))
    } else if is_letter(byte) {
        Some(Spot::Name(opened))
    } else if byte == b'(' {
        Some(Spot::Before(opened + 1))
    } else if byte == b'!' {
        Some(Spot::Before(opened))
    } else {
        None
    }
}

/// After the byte that follows an operand.
#[tactic(auto, unfolding(crate::specs::Scans::followed))]
fn followed(opened: usize, byte: u8) -> Option<Spot>
    requires { opened + 1 < 2 ^ 64 }
    ensures value { result ≡ spec.followed opened byte }
    ensures opened { IfSome result (λ spot. spec.opened spot ≤ opened + 1) }
{
    if begins_operand(byte) {
        begun(opened, byte)
    } else if is_operator(byte) {
        Some(Spot::Before(opened))
    } else if byte == b'\'' {
        Some(Spot::After(opened))
    } else if byte == b')' && 0 < opened {
        Some(Spot::After(opened - 1))
    } else {
        None
    }
}

fn after_operand(opened: usize, text: &[u8]) -> Option<Spot>
    requires { opened + 1 < 2 ^ 64 }
    ensures value { result ≡ spec.after_operand opened text.now }
    ensures opened { IfSome result (λ spot. spec.opened spot ≤ opened + 1) }
{
    if is_blank(text) {
        Some(Spot::After(opened))
    } else {
        followed(opened, byte_at(text, 0))
    }
}

/// One byte on, and `None` where no function goes on like this.
#[tactic(auto, unfolding(crate::specs::Scans::turned))]
fn turned(spot: Spot, text: &[u8]) -> Option<Spot>
    requires { spec.opened spot + 1 < 2 ^ 64 }
    ensures value { result ≡ spec.turned spot text.now }
    ensures opened { IfSome result (λ next. spec.opened next ≤ spec.opened spot + 1) }
{
    match spot {
        Spot::Before(opened) if is_blank(text) => Some(Spot::Before(opened)),
        Spot::Before(opened) => begun(opened, byte_at(text, 0)),
        Spot::Name(opened) if is_word(byte_at(text, 0)) => Some(Spot::Name(opened)),
        Spot::Name(opened) | Spot::After(opened) => after_operand(opened, text),
    }
}

/// Whether a function may end here.
fn is_end(spot: Spot) -> bool
    ensures { result ≡ spec.is_end spot }
{
    match spot {
        Spot::Before(_) => false,
        Spot::Name(opened) | Spot::After(opened) => opened == 0,
    }
}

/// Whether a text is a function, however deep it is. This takes no memory, and does not recurse.
pub fn is_function(text: &[u8]) -> bool
    ensures { result ≡ is_some (function_of text.now) }
{
    let mut spot = Spot::Before(0);
    for i in 0..text.len() {
        let Some(next) = turned(spot, after(text, i)) else {
            return false;
        };
        spot = next;
    }
    is_end(spot)
}
