//! How a signal is shown in a text.
ghost use Rattle.std.specs.Prelude.{◌≡◌, ◌++◌, length, map, OnOk};
ghost use Rattle.wave_signals.specs.Signals.{scopes_text};
ghost use Rattle.wave_signals.specs.Labels as labels;

use crate::signals::{Signal, Span};
use sdcv_base::{Name, Seq, push_decimal};
use std::alloc::{AllocError, Global};

fn push_bounds(alloc: Global, text: &mut Vec<u8>, first: u64, last: u64) -> Result<(), AllocError>
    ensures { OnOk result (text.new.items ≡ text.old.items ++ labels.bounds first last) }
{
    text.push(b'[')?;
    push_decimal(alloc, text, first)?;
    if first != last {
        text.push(b':')?;
        push_decimal(alloc, text, last)?;
    }
    Ok(text.push(b']')?)
}

/// Appends the indices of a signal: `[3]` of one bit, `[3:0]` of more, nothing where it has no index.
pub fn push_range(alloc: Global, text: &mut Vec<u8>, signal: &Signal) -> Result<(), AllocError>
    ensures { OnOk result (text.new.items ≡ text.old.items ++ labels.range signal.now) }
{
    let more = signal.values.len().saturating_sub(1) as u64;
    match signal.span {
        Span::Whole => Ok(()),
        Span::Up(first) => {
            let last = first.checked_add(more).ok_or(AllocError)?;
            push_bounds(alloc, text, first, last)
        }
        Span::Down(first) => push_bounds(alloc, text, first, first.saturating_sub(more)),
    }
}

fn push_scopes(text: &mut Vec<u8>, scopes: &[Name]) -> Result<(), AllocError>
    ensures { OnOk result (text.new.items ≡ text.old.items ++ scopes_text scopes.now) }
{
    for scope in scopes {
        text.extend_from_slice(scope.as_bytes())?;
        text.push(b'/')?;
    }
    Ok(())
}

/// Appends the full name of a signal with its indices: `u_path/a_reg[1:0]`.
pub fn push_label(alloc: Global, text: &mut Vec<u8>, signal: &Signal) -> Result<(), AllocError>
    ensures { OnOk result (text.new.items ≡ text.old.items ++ labels.label signal.now) }
{
    push_scopes(text, signal.stem.scopes.as_slice())?;
    text.extend_from_slice(signal.stem.front.as_bytes())?;
    push_range(alloc, text, signal)?;
    text.extend_from_slice(signal.stem.back.as_bytes())
}

/// Appends the digits of a signal's bits in a cycle.
pub fn push_digits(text: &mut Vec<u8>, signal: &Signal, cycle: usize) -> Result<(), AllocError>
    ensures { OnOk result (text.new.items ≡ text.old.items ++ labels.digits signal.now cycle) }
{
    for values in signal.values.as_slice() {
        text.push(digit_at(values, cycle))?;
    }
    Ok(())
}

/// A bit's digit in a cycle, from 0; a bit without a value there has the digit 0.
pub fn digit_at(values: &Seq<bool>, cycle: usize) -> u8
    ensures { result ≡ labels.digit_at cycle values.now }
{
    match values.as_slice().get(cycle) {
        Some(true) => b'1',
        _ => b'0',
    }
}
