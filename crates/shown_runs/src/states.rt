//! The registers' bits in the first cycle.
ghost use Rattle.std.specs.Prelude.{◌≡◌, ◌++◌, IfOk, OnOk, string_bytes, flat_map};
ghost use Rattle.std.specs.List.{list_any};
ghost use Rattle.wave_signals.specs.Labels.{digits, value_at};
ghost use Rattle.shown_runs.specs.Lines as spec;
ghost use Rattle.shown_runs.specs.Values.{value_text};

use crate::pieces::{add_text, label_text};
use crate::values::value_text;
use sdcv_base::{Name, Seq};
use std::alloc::{AllocError, Global};
use wave_signals::{Signal, push_digits};

fn first_bit(values: &Seq<bool>) -> bool
    ensures { result ≡ value_at 0 values.now }
{
    values.as_slice().get(0).copied().unwrap_or(false)
}

/// Whether a bit of the signal is 1 in the first cycle.
fn is_set(signal: &Signal) -> bool
    ensures { result ≡ spec.is_set signal.now }
{
    signal
        .values
        .as_slice()
        .iter()
        .any(|values| first_bit(values))
}

fn is_any_set(signals: &[Signal]) -> bool
    ensures { result ≡ list_any spec.is_set signals.now }
{
    signals.iter().any(|signal| is_set(signal))
}

fn first_digits(alloc: Global, signal: &Signal) -> Result<Vec<u8>, AllocError>
    ensures { IfOk result (λ text. text.items ≡ digits signal.now 0) }
{
    let mut text = Vec::new(alloc);
    push_digits(&mut text, signal, 0)?;
    Ok(text)
}

/// The value of a signal in the first cycle.
fn first_value(alloc: Global, signal: &Signal) -> Result<Name, AllocError>
    ensures { IfOk result (λ text. text ≡ value_text (digits signal.now 0)) }
{
    let digits = first_digits(alloc, signal)?;
    value_text(alloc, &digits)
}

#[tactic(auto, unfolding(crate::specs::Lines::set_text))]
fn set_text(alloc: Global, signal: &Signal) -> Result<Name, AllocError>
    ensures { IfOk result (λ text. text ≡ spec.set_text signal.now) }
{
    let label = label_text(alloc, signal)?;
    let value = first_value(alloc, signal)?;
    let mut text = Vec::from_slice(alloc, b"register ")?;
    text.extend_from_slice(label.as_bytes())?;
    text.push(b'=')?;
    text.extend_from_slice(value.as_bytes())?;
    text.extend_from_slice(b" in cycle 0")?;
    Ok(Name::from_vec(text))
}

fn add_set(alloc: Global, signal: &Signal, lines: &mut Seq<Name>) -> Result<(), AllocError>
    ensures { OnOk result (lines.new ≡ lines.old ++ spec.set_lines signal.now) }
{
    if is_set(signal) {
        lines.push(set_text(alloc, signal)?)?;
    }
    Ok(())
}

/// Adds a line for each signal that has a bit 1 in the first cycle.
fn add_sets(alloc: Global, signals: &[Signal], lines: &mut Seq<Name>) -> Result<(), AllocError>
    ensures { OnOk result (lines.new ≡ lines.old ++ flat_map spec.set_lines signals.now) }
{
    for signal in signals {
        add_set(alloc, signal, lines)?;
    }
    Ok(())
}

#[tactic(auto, unfolding(crate::specs::Lines::all_zero))]
fn zero_text(alloc: Global) -> Result<String, AllocError>
    ensures { IfOk result (λ text. string_bytes text ≡ spec.all_zero) }
{
    String::from_str(alloc, "all registers 0 in cycle 0")
}

/// Adds the lines of the registers' bits in the first cycle.
#[tactic(auto, unfolding(crate::specs::Lines::state_lines))]
pub(crate) fn add_states(
    alloc: Global,
    signals: &[Signal],
    lines: &mut Seq<Name>,
) -> Result<(), AllocError>
    ensures { OnOk result (lines.new ≡ lines.old ++ spec.state_lines signals.now) }
{
    if is_any_set(signals) {
        add_sets(alloc, signals, lines)
    } else {
        add_text(lines, zero_text(alloc)?)
    }
}
