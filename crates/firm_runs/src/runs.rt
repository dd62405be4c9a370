//! What is known of the run of a stimulus.
ghost use Rattle.std.specs.Prelude.{◌≡◌, IfOk, length};
ghost use Rattle.net_model.specs.Netlist.{IsSound};
ghost use Rattle.net_model.specs.Stimuli.{IsLawful};
ghost use Rattle.firm_runs.specs.Cycles3.{AreKnownBits, IsKnownRun};

use crate::captures::next_bits3;
use crate::cycles::Cycle3;
use crate::free_bits::FreeBits;
use crate::known_inputs::known_inputs;
use crate::settling::settled3;
use net_model::{Design, Stimulus, Tern, Value};
use sdcv_base::Seq;
use std::alloc::{AllocError, Global};

/// The values of register bits, which are known.
fn known_bits(alloc: Global, design: &Design, state: &Seq<bool>) -> Result<Seq<Tern>, AllocError>
    requires { length state.now ≡ length design.now.regs }
    ensures { IfOk result (AreKnownBits design.now state.now) }
{
    let mut bits = Seq::new(alloc);
    for r in 0..design.regs.len() {
        bits.push(Tern::of_bit(state.at(r)))?;
    }
    Ok(bits)
}

/// What is known of each cycle of the run that a lawful stimulus stands for, where the bits of free inputs are unknown.
pub fn known_run(
    alloc: Global,
    design: &Design,
    free: &FreeBits,
    stimulus: &Stimulus,
) -> Result<Seq<Cycle3>, AllocError>
    requires sound { IsSound design.now }
    requires lawful { IsLawful design.now stimulus.now }
    ensures { IfOk result (IsKnownRun design.now free.now stimulus.now) }
{
    let mut run = Seq::new(alloc);
    let mut bits = known_bits(alloc, design, &stimulus.state)?;
    for t in 0..stimulus.inputs.len() {
        let ins = known_inputs(alloc, design, free, t, stimulus.inputs.item(t))?;
        let cycle = settled3(alloc, design, bits, ins)?;
        bits = next_bits3(alloc, design, &cycle)?;
        run.push(cycle)?;
    }
    Ok(run)
}
