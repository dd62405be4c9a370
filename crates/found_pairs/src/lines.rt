//! The text of what is found.
ghost use Rattle.std.specs.Prelude.{◌≡◌, ◌++◌, ◌∷◌, [], IfOk, OnOk};
ghost use Rattle.multicycle_text.specs.Lines.{lines_text};
ghost use Rattle.found_pairs.specs.Lines as spec;

use mcp_detect::{Detected, Tried};
use multicycle_text::{push_hold_line, push_line, writable};
use std::alloc::{AllocError, Global};

/// Whether the pair has a line in the text: something is found of it, and both its names can be written.
pub fn is_written(tried: &Tried) -> bool
    ensures { result ≡ spec.is_written tried.now }
{
    tried.k >= 2 && writable(tried.start.as_bytes()) && writable(tried.end.as_bytes())
}

/// A line for each pair that is written, in the order in which they were tried, and with `hold` one for its hold check after it.
/// Where nothing is found the text is empty.
pub fn found_text(alloc: Global, detected: &Detected, hold: bool) -> Result<Vec<u8>, AllocError>
    ensures { IfOk result (λ text. text.items ≡ spec.found_bytes hold detected.now) }
{
    let mut text = Vec::new(alloc);
    for place in 0..detected.tried.len() {
        push_pair(alloc, &mut text, detected.tried.item(place), hold)?;
    }
    Ok(text)
}

fn push_pair(alloc: Global, text: &mut Vec<u8>, tried: &Tried, hold: bool) -> Result<(), AllocError>
    ensures { OnOk result (text.new.items ≡ text.old.items ++ lines_text (spec.all_lines hold (spec.lines_of (tried.now ∷ [])))) }
{
    if is_written(tried) {
        push_lines(alloc, text, tried, hold)?;
    }
    Ok(())
}

fn push_lines(
    alloc: Global,
    text: &mut Vec<u8>,
    tried: &Tried,
    hold: bool,
) -> Result<(), AllocError>
    ensures { OnOk result (text.new.items ≡ text.old.items ++ lines_text (spec.lines_with hold (spec.line_of tried.now))) }
{
    let (start, end) = (tried.start.as_bytes(), tried.end.as_bytes());
    push_line(alloc, text, tried.k, start, end)?;
    if hold {
        push_hold_line(alloc, text, tried.k, start, end)?;
    }
    Ok(())
}
