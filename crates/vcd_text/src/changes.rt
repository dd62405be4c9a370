//! The values of a wave, cycle by cycle.
ghost use Rattle.std.specs.Prelude.{◌≡◌, ◌++◌, OnOk};
ghost use Rattle.wave_signals.specs.Numbered.{numbered};
ghost use Rattle.vcd_text.specs.Changes as spec;

use crate::lines::{begin_of, plus, push_line, push_stamp};
use crate::waves::Wave;
use sdcv_base::{Seq, push_decimal};
use std::alloc::{AllocError, Global};
use wave_signals::{Signal, digit_at, push_digits};

/// Whether a bit of a signal has another value in one cycle than in another.
fn differs(signal: &Signal, cycle: usize, other: usize) -> bool
    ensures { result ≡ spec.differs cycle other signal.now }
{
    let bits = signal.values.as_slice();
    bits.iter().any(|values| digit_at(values, cycle) != digit_at(values, other))
}

fn has_changed(signal: &Signal, cycle: usize) -> bool
    ensures { result ≡ spec.has_changed cycle signal.now }
{
    if cycle == 0 {
        return true;
    }
    differs(signal, cycle, cycle - 1)
}

fn push_scalar(
    alloc: Global,
    text: &mut Vec<u8>,
    number: u64,
    signal: &Signal,
    cycle: usize,
) -> Result<(), AllocError>
    ensures { OnOk result (text.new.items ≡ text.old.items ++ spec.scalar_line cycle number signal.now) }
{
    push_digits(text, signal, cycle)?;
    push_decimal(alloc, text, number)?;
    Ok(text.push(b'\n')?)
}

fn push_vector(
    alloc: Global,
    text: &mut Vec<u8>,
    number: u64,
    signal: &Signal,
    cycle: usize,
) -> Result<(), AllocError>
    ensures { OnOk result (text.new.items ≡ text.old.items ++ spec.vector_line cycle number signal.now) }
{
    text.push(b'b')?;
    push_digits(text, signal, cycle)?;
    text.push(b' ')?;
    push_decimal(alloc, text, number)?;
    Ok(text.push(b'\n')?)
}

/// Appends the value of a signal in a cycle.
fn push_value(
    alloc: Global,
    text: &mut Vec<u8>,
    number: u64,
    signal: &Signal,
    cycle: usize,
) -> Result<(), AllocError>
    ensures { OnOk result (text.new.items ≡ text.old.items ++ spec.value_line cycle number signal.now) }
{
    if signal.values.len() == 1 {
        push_scalar(alloc, text, number, signal, cycle)
    } else {
        push_vector(alloc, text, number, signal, cycle)
    }
}

fn push_change(
    alloc: Global,
    text: &mut Vec<u8>,
    number: u64,
    signal: &Signal,
    cycle: usize,
) -> Result<(), AllocError>
    ensures { OnOk result (text.new.items ≡ text.old.items ++ spec.change_line cycle number signal.now) }
{
    if has_changed(signal, cycle) {
        push_value(alloc, text, number, signal, cycle)
    } else {
        Ok(())
    }
}

fn push_changes(
    alloc: Global,
    text: &mut Vec<u8>,
    first: u64,
    signals: &Seq<Signal>,
    cycle: usize,
) -> Result<(), AllocError>
    ensures { OnOk result (text.new.items ≡ text.old.items ++ numbered (spec.change_line cycle) first signals.now) }
{
    for place in 0..signals.len() {
        let signal = signals.item(place);
        push_change(alloc, text, plus(first, place as u64)?, signal, cycle)?;
    }
    Ok(())
}

/// Appends the clock's rise, and what changes with it.
fn push_rise(alloc: Global, text: &mut Vec<u8>, wave: &Wave, cycle: usize) -> Result<(), AllocError>
    ensures { OnOk result (text.new.items ≡ text.old.items ++ spec.rise wave.now cycle) }
{
    push_line(text, b"10")?;
    push_changes(alloc, text, 1, &wave.marks, cycle)?;
    let first = plus(1, wave.marks.len() as u64)?;
    push_changes(alloc, text, first, &wave.signals, cycle)
}

/// Appends the rise in a cycle; in the first one it is marked as a list of all values.
fn push_dumped(
    alloc: Global,
    text: &mut Vec<u8>,
    wave: &Wave,
    cycle: usize,
) -> Result<(), AllocError>
    ensures { OnOk result (text.new.items ≡ text.old.items ++ spec.dumped wave.now cycle) }
{
    if cycle != 0 {
        return push_rise(alloc, text, wave, cycle);
    }
    push_line(text, b"$dumpvars")?;
    push_rise(alloc, text, wave, cycle)?;
    push_line(text, b"$end")
}

/// Appends one cycle: the clock rises with it, and falls in its middle.
fn push_cycle(
    alloc: Global,
    text: &mut Vec<u8>,
    wave: &Wave,
    cycle: usize,
) -> Result<(), AllocError>
    ensures { OnOk result (text.new.items ≡ text.old.items ++ spec.cycle_text wave.now cycle) }
{
    let begin = begin_of(cycle)?;
    push_stamp(alloc, text, begin)?;
    push_dumped(alloc, text, wave, cycle)?;
    push_stamp(alloc, text, plus(begin, 5)?)?;
    push_line(text, b"00")
}

/// Appends all cycles.
pub(crate) fn push_cycles(alloc: Global, text: &mut Vec<u8>, wave: &Wave) -> Result<(), AllocError>
    ensures { OnOk result (text.new.items ≡ text.old.items ++ spec.cycles_text wave.now wave.now.cycles) }
{
    for cycle in 0..wave.cycles {
        push_cycle(alloc, text, wave, cycle)?;
    }
    Ok(())
}
