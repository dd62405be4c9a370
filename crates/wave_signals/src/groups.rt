//! Bits grouped into signals.
ghost use Rattle.std.specs.Prelude.{◌≡◌, ◌<◌, ◌++◌, ◌∷◌, [], ℕ, true, IfOk, IfSome, OnOk, IsTrue, map, flat_map, IsPermutation};
ghost use Rattle.wave_signals.specs.Signals.{bits_of, index_in};
ghost use Rattle.wave_signals.specs.Splits.{bit_of, IsJoined};

use crate::bits::NamedBit;
use crate::orders::bit_order;
use crate::signals::{Signal, Span, Stem};
use crate::splits::{SplitBit, split_bits};
use sdcv_base::{Name, Seq};
use std::alloc::{AllocError, Global};

fn are_equal(a: &[Name], b: &[Name]) -> bool
    ensures { IsTrue result → a.now ≡ b.now }
{
    if a.len() != b.len() {
        return false;
    }
    for place in 0..a.len() {
        if a[place].as_bytes() != b[place].as_bytes() {
            return false;
        }
    }
    true
}

fn is_same_stem(a: &Stem, b: &Stem) -> bool
    ensures { IsTrue result → a.now ≡ b.now }
{
    a.front.as_bytes() == b.front.as_bytes()
        && a.back.as_bytes() == b.back.as_bytes()
        && are_equal(a.scopes.as_slice(), b.scopes.as_slice())
}

/// The span of so many bits and one more, if that one's index goes on as theirs do.
fn longer(span: Span, count: usize, index: Option<u64>) -> Option<Span>
    ensures next { IfSome result (λ more. index_in more count ≡ index) }
    ensures kept { IfSome result (λ more. (k : ℕ) → k < count → index_in more k ≡ index_in span k) }
{
    let index = index?;
    match span {
        Span::Whole => None,
        Span::Up(first) => {
            if first < index && index - first == count as u64 {
                Some(span)
            } else if count == 1 && index < first && first - index == 1 {
                Some(Span::Down(first))
            } else {
                None
            }
        }
        Span::Down(first) => {
            if index < first && first - index == count as u64 {
                Some(span)
            } else {
                None
            }
        }
    }
}

/// The span of one bit.
fn span_of(index: Option<u64>) -> Span
    ensures { index_in result 0 ≡ index }
{
    match index {
        None => Span::Whole,
        Some(first) => Span::Up(first),
    }
}

/// The signal of one bit.
fn single(alloc: Global, bit: SplitBit) -> Result<Signal, AllocError>
    ensures { IfOk result (λ signal. bits_of signal ≡ bit_of bit ∷ []) }
{
    let SplitBit {
        kind,
        stem,
        index,
        values,
    } = bit;
    Ok(Signal {
        kind,
        stem,
        span: span_of(index),
        values: Seq::one(alloc, values)?,
    })
}

/// The span of the signal with this bit after its last one, if they differ in their index alone and that one is the next.
fn joined(signal: &Signal, bit: &SplitBit) -> Option<Span>
    ensures { IfSome result (IsJoined signal.now bit.now) }
{
    if signal.kind == bit.kind && is_same_stem(&signal.stem, &bit.stem) {
        longer(signal.span, signal.values.len(), bit.index)
    } else {
        None
    }
}

fn with_bit(signal: Signal, span: Span, bit: SplitBit) -> Result<Signal, AllocError>
    requires { IsJoined signal bit span }
    ensures { IfOk result (λ more. bits_of more ≡ bits_of signal ++ bit_of bit ∷ []) }
{
    let Signal {
        kind,
        stem,
        span: _,
        mut values,
    } = signal;
    let SplitBit {
        kind: _,
        stem: _,
        index: _,
        values: last,
    } = bit;
    values.push(last)?;
    Ok(Signal {
        kind,
        stem,
        span,
        values,
    })
}

/// Adds a bit: to the last signal, or as a signal of its own.
fn add_bit(alloc: Global, signals: &mut Vec<Signal>, bit: SplitBit) -> Result<(), AllocError>
    ensures { OnOk result (flat_map bits_of signals.new.items ≡ flat_map bits_of signals.old.items ++ bit_of bit ∷ []) }
{
    let Some(last) = signals.pop() else {
        return Ok(signals.push(single(alloc, bit)?)?);
    };
    match joined(&last, &bit) {
        Some(span) => signals.push(with_bit(last, span, bit)?)?,
        None => {
            signals.push(last)?;
            signals.push(single(alloc, bit)?)?;
        }
    }
    Ok(())
}

/// The signals of bits, in their order.
fn merged(alloc: Global, bits: Vec<SplitBit>) -> Result<Vec<Signal>, AllocError>
    ensures { IfOk result (λ signals. flat_map bits_of signals.items ≡ map bit_of bits.items) }
{
    let mut signals = Vec::new(alloc);
    for bit in bits {
        add_bit(alloc, &mut signals, bit)?;
    }
    Ok(signals)
}

/// The signals of these bits, in this order: neighbours are one signal where their names differ in the index of the last part
/// alone, and the indices rise by one, or fall by one, from bit to bit.
pub fn grouped(alloc: Global, bits: Vec<NamedBit>) -> Result<Vec<Signal>, AllocError>
    ensures { IfOk result (λ signals. flat_map bits_of signals.items ≡ bits.items) }
{
    merged(alloc, split_bits(alloc, bits)?)
}

/// The signals of these bits as `grouped` makes them, scope by scope: in a scope first wires, as they are listed, then registers,
/// each from its highest index down, and then the scopes in it.
pub fn ordered(alloc: Global, bits: Vec<NamedBit>) -> Result<Vec<Signal>, AllocError>
    ensures { IfOk result (λ signals. IsPermutation bits.items (flat_map bits_of signals.items)) }
{
    let mut split = split_bits(alloc, bits)?;
    split.sort_by(bit_order)?;
    Ok(merged(alloc, split)?)
}
