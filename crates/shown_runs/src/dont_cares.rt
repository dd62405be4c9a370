//! Which bits of a stimulus are don't-cares: free bits that may be anything while its violation stands.
ghost use Rattle.std.specs.Prelude.{◌≡◌, ◌↔◌, IfOk, IsTrue, map};
ghost use Rattle.std.specs.List.{list_any, range_with_len};
ghost use Rattle.net_model.specs.Netlist.{IsSound};
ghost use Rattle.net_model.specs.Fits.{Fits};
ghost use Rattle.net_model.specs.Held.{sets};
ghost use Rattle.net_model.specs.Stimuli.{IsLawful};
ghost use Rattle.firm_runs.specs.Frees as frees;
ghost use Rattle.shown_runs.specs.DontCares as spec;
ghost use Rattle.shown_runs.specs.DontCares.{AreDontCares};

use firm_runs::{FreeBits, shows_firm};
use linked_types::Linked;
use net_model::{Claim, Design, Fixed, Stimulus};
use sdcv_base::Seq;
use std::alloc::{AllocError, Global};

fn free_inputs(linked: &Linked) -> FreeBits
    ensures { result ≡ spec.free_inputs linked.now }
{
    FreeBits {
        first: linked.names.ins.len(),
        count: linked.names.free.len(),
        sinks_from: linked.design.outputs.len(),
    }
}

/// Whether a setting is of this input.
fn is_set(settings: &Seq<Fixed>, input: usize) -> bool
    ensures { result ≡ list_any (sets input) settings.now }
{
    settings
        .as_slice()
        .iter()
        .any(|setting| setting.input == input)
}

fn is_given(design: &Design, cycle: usize, input: usize) -> bool
    ensures { result ≡ frees.is_given design.now cycle input }
{
    is_set(&design.fixed, input) || cycle < design.reset_len && is_set(&design.resets, input)
}

fn is_loose(design: &Design, free: &FreeBits, cycle: usize, input: usize) -> bool
    ensures { result ≡ spec.is_loose design.now free.now cycle input }
{
    free.is_free(input) && !is_given(design, cycle, input)
}

/// Which bits of a cycle are free and not given.
fn loose_in(
    alloc: Global,
    design: &Design,
    free: &FreeBits,
    cycle: usize,
) -> Result<Seq<bool>, AllocError>
    ensures { IfOk result (λ bits. bits ≡ spec.loose_in design.now free.now cycle) }
{
    let mut bits = Seq::new(alloc);
    for input in 0..design.inputs.len() {
        bits.push(is_loose(design, free, cycle, input))?;
    }
    Ok(bits)
}

fn loose_bits(
    alloc: Global,
    design: &Design,
    free: &FreeBits,
    cycles: usize,
) -> Result<Seq<Seq<bool>>, AllocError>
    ensures { IfOk result (λ bits. bits ≡ spec.loose_bits design.now free.now cycles) }
{
    let mut bits = Seq::new(alloc);
    for cycle in 0..cycles {
        bits.push(loose_in(alloc, design, free, cycle)?)?;
    }
    Ok(bits)
}

fn loose_if(
    alloc: Global,
    firm: bool,
    design: &Design,
    free: &FreeBits,
    cycles: usize,
) -> Result<Seq<Seq<bool>>, AllocError>
    ensures { IfOk result (λ bits. bits ≡ spec.loose_if firm design.now free.now cycles) }
{
    if firm {
        loose_bits(alloc, design, free, cycles)
    } else {
        Ok(Seq::new(alloc))
    }
}

/// Whether the violation at a toggle stands whatever the free bits are, as far as three values show it.
#[tactic(auto, using(crate::proofs::Toggles::none_free, crate::proofs::Toggles::never_stands))]
fn stands(
    alloc: Global,
    design: &Design,
    free: &FreeBits,
    claim: &Claim,
    stimulus: &Stimulus,
    toggle: usize,
) -> Result<bool, AllocError>
    requires sound { IsSound design.now }
    requires fits { Fits design.now claim.now }
    requires lawful { IsLawful design.now stimulus.now }
    ensures { IfOk result (λ stands. IsTrue stands ↔ spec.Stands design.now free.now claim.now stimulus.now toggle) }
{
    if free.count == 0 {
        return Ok(false);
    }
    if toggle <= design.reset_len {
        return Ok(false);
    }
    let offset = toggle - design.reset_len - 1;
    let firm = shows_firm(alloc, design, free, claim, stimulus, offset)?;
    Ok(firm)
}

/// The don't-cares of a stimulus that violates a claim at a toggle: for each cycle a bit for each input.
pub(crate) fn dont_cares(
    alloc: Global,
    linked: &Linked,
    claim: &Claim,
    stimulus: &Stimulus,
    toggle: usize,
) -> Result<Seq<Seq<bool>>, AllocError>
    requires sound { IsSound linked.now.design }
    requires fits { Fits linked.now.design claim.now }
    requires lawful { IsLawful linked.now.design stimulus.now }
    ensures { IfOk result (AreDontCares linked.now claim.now stimulus.now toggle) }
{
    let design = &linked.design;
    let free = free_inputs(linked);
    let firm = stands(alloc, design, &free, claim, stimulus, toggle)?;
    let marks = loose_if(alloc, firm, design, &free, stimulus.inputs.len())?;
    Ok(marks)
}

/// Whether the bit of an input in a cycle is marked.
pub(crate) fn is_marked(marks: &Seq<Seq<bool>>, cycle: usize, input: usize) -> bool
    ensures { result ≡ spec.is_marked marks.now cycle input }
{
    match marks.as_slice().get(cycle) {
        Some(bits) => bits.as_slice().get(input).copied().unwrap_or(false),
        None => false,
    }
}
