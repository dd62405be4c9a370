//! What is known of the input bits of a cycle.
ghost use Rattle.std.specs.Prelude.{◌≡◌, IfOk, length};
ghost use Rattle.std.specs.List.{list_any};
ghost use Rattle.net_model.specs.Held.{sets};
ghost use Rattle.firm_runs.specs.Frees as frees;
ghost use Rattle.firm_runs.specs.Cycles3.{AreKnownInputs};

use crate::free_bits::FreeBits;
use net_model::{Design, Fixed, Tern};
use sdcv_base::Seq;
use std::alloc::{AllocError, Global};

/// Whether a setting is of this input.
fn is_set(settings: &Seq<Fixed>, input: usize) -> bool
    ensures { result ≡ list_any (sets input) settings.now }
{
    settings
        .as_slice()
        .iter()
        .any(|setting| setting.input == input)
}

/// Whether an input's bit is given in cycle t.
fn is_given(design: &Design, t: usize, input: usize) -> bool
    ensures { result ≡ frees.is_given design.now t input }
{
    is_set(&design.fixed, input) || t < design.reset_len && is_set(&design.resets, input)
}

/// What is known of an input in cycle t, where a stimulus has this bit.
fn known_bit(design: &Design, free: &FreeBits, t: usize, input: usize, bit: bool) -> Tern
    ensures { result ≡ frees.known_bit design.now free.now t input bit }
{
    if free.is_free(input) && !is_given(design, t, input) {
        Tern::Unknown
    } else if bit {
        Tern::One
    } else {
        Tern::Zero
    }
}

/// What is known of each input in cycle t, where a stimulus has these bits.
pub fn known_inputs(
    alloc: Global,
    design: &Design,
    free: &FreeBits,
    t: usize,
    ins: &Seq<bool>,
) -> Result<Seq<Tern>, AllocError>
    requires { length ins.now ≡ length design.now.inputs }
    ensures { IfOk result (AreKnownInputs design.now free.now t ins.now) }
{
    let mut known = Seq::new(alloc);
    for input in 0..ins.len() {
        known.push(known_bit(design, free, t, input, ins.at(input)))?;
    }
    Ok(known)
}
