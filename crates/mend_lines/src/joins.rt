//! Texts with one text between each two.
ghost use Rattle.std.specs.Prelude.{◌≡◌, ◌++◌, OnOk};
ghost use Rattle.mend_lines.specs.Bodies.{newline};
ghost use Rattle.mend_lines.specs.Lines.{between_text, joined_by, next_text};

use sdcv_base::{Name, Seq};
use std::alloc::AllocError;

/// Appends what stands before a text after others.
pub(crate) fn push_between(
    text: &mut Vec<u8>,
    between: &[u8],
    first: bool,
) -> Result<(), AllocError>
    ensures { OnOk result (text.new.items ≡ text.old.items ++ between_text between.now first) }
{
    if first {
        Ok(())
    } else {
        text.extend_from_slice(between)
    }
}

/// Appends a text after others.
pub(crate) fn push_next(
    text: &mut Vec<u8>,
    between: &[u8],
    first: bool,
    next: &[u8],
) -> Result<(), AllocError>
    ensures { OnOk result (text.new.items ≡ text.old.items ++ next_text between.now first next.now) }
{
    push_between(text, between, first)?;
    text.extend_from_slice(next)
}

/// Appends these lines.
pub(crate) fn push_lines(text: &mut Vec<u8>, lines: &Seq<Name>) -> Result<(), AllocError>
    ensures { OnOk result (text.new.items ≡ text.old.items ++ joined_by newline lines.now) }
{
    for place in 0..lines.len() {
        push_next(text, b"\n", place == 0, lines.item(place).as_bytes())?;
    }
    Ok(())
}
