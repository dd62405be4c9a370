//! The bits of a cycle.
ghost use Rattle.std.specs.Prelude.{◌≡◌, map, IfOk};
ghost use Rattle.net_model.specs.Cycles.{bit_at};
ghost use Rattle.named_runs.specs.NamedBits.{place_bit};

use net_model::Cycle;
use sdcv_base::Seq;
use std::alloc::{AllocError, Global};

/// A bit of each cycle: that of a net, of a register or of an input, by number.
#[derive(Clone, Copy)]
pub enum Place {
    Net(usize),
    Reg(usize),
    Input(usize),
}

fn bit_at(bits: &Seq<bool>, place: usize) -> bool
    ensures { result ≡ bit_at bits.now place }
{
    bits.as_slice().get(place).copied().unwrap_or(false)
}

fn place_bit(cycle: &Cycle, place: Place) -> bool
    ensures { result ≡ place_bit place cycle.now }
{
    match place {
        Place::Net(net) => bit_at(&cycle.nets, net),
        Place::Reg(reg) => bit_at(&cycle.bits, reg),
        Place::Input(input) => bit_at(&cycle.ins, input),
    }
}

/// Its values, cycle by cycle.
pub(crate) fn values_of(alloc: Global, run: &[Cycle], place: Place) -> Result<Seq<bool>, AllocError>
    ensures { IfOk result (λ values. values ≡ map (place_bit place) run.now) }
{
    let mut values = Seq::new(alloc);
    for cycle in run {
        values.push(place_bit(cycle, place))?;
    }
    Ok(values)
}
