//! The index of a name.
ghost use Rattle.std.specs.Prelude.{◌≡◌, ◌<◌, ◌≤◌, IfOk, IfSome, length, slice_index};
ghost use Rattle.std.specs.Fmt.{decimal};
ghost use Rattle.wave_signals.specs.Splits.{IsIndexed};

use sdcv_base::read_decimal;
use std::alloc::{AllocError, Global};

/// An index `[i]` of a text, where it has one; where that begins, and where what comes after begins.
#[derive(Drop)]
pub struct Indexed {
    pub before: usize,
    pub index: Option<u64>,
    pub after: usize,
}

/// The last place of a byte.
fn last_place(text: &[u8], byte: u8) -> Option<usize>
    ensures { IfSome result (λ place. (place < length text.now) × (slice_index text.now place ≡ byte)) }
{
    for place in (0..text.len()).rev() {
        if text[place] == byte {
            return Some(place);
        }
    }
    None
}

/// The number that is written with these digits.
fn written_number(alloc: Global, digits: &[u8]) -> Result<Option<u64>, AllocError>
    ensures { IfOk result (λ number. IfSome number (λ n. decimal n ≡ digits.now)) }
{
    let Some(number) = read_decimal(digits, u64::MAX) else {
        return Ok(None);
    };
    let text = number.to_string(alloc)?;
    if text.as_bytes() == digits {
        Ok(Some(number))
    } else {
        Ok(None)
    }
}

/// The last `[..]` of a text, where it is a number without leading zeros; else none, at the text's end.
pub(crate) fn index_of(alloc: Global, text: &[u8]) -> Result<Indexed, AllocError>
    ensures { IfOk result (IsIndexed text.now) }
{
    let none = Indexed {
        before: text.len(),
        index: None,
        after: text.len(),
    };
    let Some(close) = last_place(text, b']') else {
        return Ok(none);
    };
    let Some(open) = last_place(&text[..close], b'[') else {
        return Ok(none);
    };
    match written_number(alloc, &text[open + 1..close])? {
        None => Ok(none),
        Some(number) => Ok(Indexed {
            before: open,
            index: Some(number),
            after: close + 1,
        }),
    }
}
