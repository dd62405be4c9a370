//! The signals of a run.
ghost use Rattle.std.specs.Prelude.{◌≡◌, flat_map, IfOk, IsPermutation};
ghost use Rattle.wave_signals.specs.Signals.{bits_of};
ghost use Rattle.linked_types.specs.Inputs.{input_names};
ghost use Rattle.named_runs.specs.NamedBits as spec;

use crate::bits::{add_nets, add_regs, input_bits};
use linked_types::Linked;
use net_model::Cycle;
use std::alloc::{AllocError, Global};
use wave_signals::{Signal, grouped, ordered};

/// All full names of nets and all registers of a design, with their bits in a run; scope by scope, as `ordered` has them.
pub fn run_signals(alloc: Global, linked: &Linked, run: &[Cycle]) -> Result<Vec<Signal>, AllocError>
    ensures { IfOk result (λ signals. IsPermutation (spec.named_bits linked.now run.now) (flat_map bits_of signals.items)) }
{
    let mut bits = Vec::new(alloc);
    add_nets(alloc, &mut bits, linked.names.nets.as_slice(), run)?;
    add_regs(alloc, &mut bits, linked.names.cells.as_slice(), run)?;
    ordered(alloc, bits)
}

/// All registers of a design, with their bits in a run; scope by scope, as `ordered` has them.
pub fn reg_signals(alloc: Global, linked: &Linked, run: &[Cycle]) -> Result<Vec<Signal>, AllocError>
    ensures { IfOk result (λ signals. IsPermutation (spec.reg_bits linked.now.names.cells run.now) (flat_map bits_of signals.items)) }
{
    let mut bits = Vec::new(alloc);
    add_regs(alloc, &mut bits, linked.names.cells.as_slice(), run)?;
    ordered(alloc, bits)
}

/// The data inputs of a design, with their bits in a run, by their numbers.
pub fn input_signals(
    alloc: Global,
    linked: &Linked,
    run: &[Cycle],
) -> Result<Vec<Signal>, AllocError>
    ensures { IfOk result (λ signals. flat_map bits_of signals.items ≡ spec.input_bits (input_names linked.now.names) run.now) }
{
    let bits = input_bits(alloc, &linked.names, run)?;
    grouped(alloc, bits)
}
