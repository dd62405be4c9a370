//! Lines, and names as one word.
ghost use Rattle.std.specs.Prelude.{◌≡◌, ◌+◌, ◌*◌, ◌++◌, map, IfOk, OnOk};
ghost use Rattle.vcd_text.specs.Lines as lines;

use sdcv_base::push_decimal;
use std::alloc::{AllocError, Global};

/// Appends a text and a newline.
pub(crate) fn push_line(text: &mut Vec<u8>, line: &[u8]) -> Result<(), AllocError>
    ensures { OnOk result (text.new.items ≡ text.old.items ++ lines.line line.now) }
{
    text.extend_from_slice(line)?;
    Ok(text.push(b'\n')?)
}

fn printed(byte: u8) -> u8
    ensures { result ≡ lines.printed byte }
{
    if 33 <= byte && byte <= 126 {
        byte
    } else {
        b'_'
    }
}

fn first_printed(byte: u8) -> u8
    ensures { result ≡ lines.first_printed byte }
{
    if byte == b'$' { b'_' } else { printed(byte) }
}

fn push_printed(text: &mut Vec<u8>, bytes: &[u8]) -> Result<(), AllocError>
    ensures { OnOk result (text.new.items ≡ text.old.items ++ map lines.printed bytes.now) }
{
    for byte in bytes {
        text.push(printed(*byte))?;
    }
    Ok(())
}

/// Appends a name as one word.
#[tactic(auto, using(crate::proofs::Words::word_none, crate::proofs::Words::word_first))]
pub(crate) fn push_word(text: &mut Vec<u8>, name: &[u8]) -> Result<(), AllocError>
    ensures { OnOk result (text.new.items ≡ text.old.items ++ lines.word name.now) }
{
    match name.split_first() {
        None => Ok(text.push(b'_')?),
        Some((first, rest)) => {
            text.push(first_printed(*first))?;
            push_printed(text, rest)
        }
    }
}

/// Appends the line of a time.
pub(crate) fn push_stamp(alloc: Global, text: &mut Vec<u8>, time: u64) -> Result<(), AllocError>
    ensures { OnOk result (text.new.items ≡ text.old.items ++ lines.stamp time) }
{
    text.push(b'#')?;
    push_decimal(alloc, text, time)?;
    Ok(text.push(b'\n')?)
}

/// The sum of two counts.
pub(crate) fn plus(a: u64, b: u64) -> Result<u64, AllocError>
    ensures { IfOk result (λ sum. sum ≡ a + b) }
{
    a.checked_add(b).ok_or(AllocError)
}

/// The time at which a cycle begins.
pub(crate) fn begin_of(cycle: usize) -> Result<u64, AllocError>
    ensures { IfOk result (λ time. time ≡ 10 * cycle) }
{
    (cycle as u64).checked_mul(10).ok_or(AllocError)
}
