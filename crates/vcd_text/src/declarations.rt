//! The declarations of a wave.
ghost use Rattle.std.specs.Prelude.{◌≡◌, ◌++◌, [], IfOk, OnOk, string_bytes};
ghost use Rattle.wave_signals.specs.Numbered.{numbered};
ghost use Rattle.vcd_text.specs.Declarations as spec;

use crate::lines::{plus, push_line, push_word};
use crate::scopes::{push_leave, push_moves, push_scope, push_upscope};
use crate::waves::Wave;
use sdcv_base::{Name, Seq};
use std::alloc::{AllocError, Global};
use wave_signals::{BitKind, Signal, Span, push_range};

fn kind_word(kind: BitKind) -> &'static str
    ensures { result.now ≡ spec.kind_word kind }
{
    match kind {
        BitKind::Wire => "wire",
        BitKind::Reg => "reg",
    }
}

/// Appends the indices of a signal after its name, if it has some.
fn push_indices(alloc: Global, text: &mut Vec<u8>, signal: &Signal) -> Result<(), AllocError>
    ensures { OnOk result (text.new.items ≡ text.old.items ++ spec.range_part signal.now.span signal.now) }
{
    match signal.span {
        Span::Whole => Ok(()),
        Span::Up(_) | Span::Down(_) => {
            text.push(b' ')?;
            push_range(alloc, text, signal)
        }
    }
}

/// Appends the name of a signal in its scope, and of a bus its indices.
fn push_reference(alloc: Global, text: &mut Vec<u8>, signal: &Signal) -> Result<(), AllocError>
    ensures { OnOk result (text.new.items ≡ text.old.items ++ spec.reference signal.now) }
{
    let mut name = Vec::new(alloc);
    name.extend_from_slice(signal.stem.front.as_bytes())?;
    name.extend_from_slice(signal.stem.back.as_bytes())?;
    push_word(text, name.as_slice())?;
    push_indices(alloc, text, signal)
}

fn var_head(alloc: Global, number: u64, signal: &Signal) -> Result<String, AllocError>
    ensures { IfOk result (λ head. string_bytes head ≡ spec.var_head number signal.now) }
{
    let kind = kind_word(signal.kind);
    let width = signal.values.len();
    format!(in alloc; "$var {kind} {width} {number}")
}

fn push_var(
    alloc: Global,
    text: &mut Vec<u8>,
    number: u64,
    signal: &Signal,
) -> Result<(), AllocError>
    ensures { OnOk result (text.new.items ≡ text.old.items ++ spec.var_line number signal.now) }
{
    let head = var_head(alloc, number, signal)?;
    text.extend_from_slice(head.as_bytes())?;
    text.push(b' ')?;
    push_reference(alloc, text, signal)?;
    push_line(text, b" $end")
}

fn push_marks(alloc: Global, text: &mut Vec<u8>, marks: &Seq<Signal>) -> Result<(), AllocError>
    ensures { OnOk result (text.new.items ≡ text.old.items ++ numbered spec.var_line 1 marks.now) }
{
    for place in 0..marks.len() {
        let mark = marks.item(place);
        push_var(alloc, text, plus(1, place as u64)?, mark)?;
    }
    Ok(())
}

fn push_vars(
    alloc: Global,
    text: &mut Vec<u8>,
    first: u64,
    signals: &Seq<Signal>,
) -> Result<(), AllocError>
    ensures { OnOk result (text.new.items ≡ text.old.items ++ spec.vars [] first signals.now) }
{
    let mut entered: &[Name] = &[];
    for place in 0..signals.len() {
        let signal = signals.item(place);
        let scopes = signal.stem.scopes.as_slice();
        push_moves(text, entered, scopes)?;
        push_var(alloc, text, plus(first, place as u64)?, signal)?;
        entered = scopes;
    }
    push_leave(text, entered)
}

/// Appends what comes before all scopes, and opens that of the tool's own signals.
fn push_title(text: &mut Vec<u8>) -> Result<(), AllocError>
    ensures { OnOk result (text.new.items ≡ text.old.items ++ spec.title) }
{
    push_line(text, b"$version sdcv_view $end")?;
    push_line(text, b"$timescale 1ns $end")?;
    push_scope(text, b"sdcv_view")
}

fn push_clock(text: &mut Vec<u8>, clock: &[u8]) -> Result<(), AllocError>
    ensures { OnOk result (text.new.items ≡ text.old.items ++ spec.clock_line clock.now) }
{
    text.extend_from_slice(b"$var wire 1 0 ")?;
    push_word(text, clock)?;
    push_line(text, b" $end")
}

/// Appends the scope of signals that are of no design.
fn push_own_scope(alloc: Global, text: &mut Vec<u8>, wave: &Wave) -> Result<(), AllocError>
    ensures { OnOk result (text.new.items ≡ text.old.items ++ spec.own_scope wave.now) }
{
    push_title(text)?;
    push_clock(text, wave.clock.as_bytes())?;
    push_marks(alloc, text, &wave.marks)?;
    push_upscope(text)
}

/// Appends the scope of the design.
fn push_top_scope(alloc: Global, text: &mut Vec<u8>, wave: &Wave) -> Result<(), AllocError>
    ensures { OnOk result (text.new.items ≡ text.old.items ++ spec.top_scope wave.now) }
{
    push_scope(text, wave.top.as_bytes())?;
    let first = plus(1, wave.marks.len() as u64)?;
    push_vars(alloc, text, first, &wave.signals)?;
    push_upscope(text)
}

/// Appends all declarations.
pub(crate) fn push_declarations(
    alloc: Global,
    text: &mut Vec<u8>,
    wave: &Wave,
) -> Result<(), AllocError>
    ensures { OnOk result (text.new.items ≡ text.old.items ++ spec.declarations wave.now) }
{
    push_own_scope(alloc, text, wave)?;
    push_top_scope(alloc, text, wave)?;
    push_line(text, b"$enddefinitions $end")
}
