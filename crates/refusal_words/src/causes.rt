//! The words of a cause, with what a line says put into them.
ghost use Rattle.std.specs.Prelude.{◌≡◌, IfOk, string_bytes};
ghost use Rattle.refusal_words.specs.Causes as spec;

use crate::fields::{after_word, first_word, shown_text};
use crate::numbers::less_one;
use std::alloc::{AllocError, Global};

// What stands for a byte of the words.
fn filling(alloc: Global, byte: u8, said: &[u8], cells: &[u8]) -> Result<String, AllocError>
    ensures { IfOk result (λ text. string_bytes text ≡ spec.filling said.now cells.now byte) }
{
    match byte {
        b'@' => shown_text(alloc, said),
        b'<' => shown_text(alloc, first_word(said)),
        b'>' => shown_text(alloc, after_word(said)),
        b'{' => less_one(alloc, first_word(said)),
        b'}' => less_one(alloc, after_word(said)),
        b'$' => shown_text(alloc, cells),
        _ => shown_text(alloc, &[byte]),
    }
}

/// The words of a cause, with what follows the head of a line and the word of the cells.
#[tactic(auto, unfolding(crate::specs::Causes::filled))]
pub(crate) fn filled(
    alloc: Global,
    cause: &[u8],
    said: &[u8],
    cells: &[u8],
) -> Result<String, AllocError>
    ensures { IfOk result (λ text. string_bytes text ≡ spec.filled said.now cells.now cause.now) }
{
    let mut out = String::new(alloc);
    for byte in cause {
        let part = filling(alloc, *byte, said, cells)?;
        out.push_str(&part)?;
    }
    Ok(out)
}
