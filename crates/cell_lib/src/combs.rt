//! Combinational cells.
ghost use Rattle.texts.specs.Reads.{Gives};
ghost use Rattle.cell_lib.specs.Fails.{Fails};
ghost use Rattle.cell_lib.specs.Combs as spec;

use crate::CombOut;
use crate::misfits::Misfit;
use crate::pins::OutPin;
use crate::scopes::resolve;
use sdcv_base::Seq;
use std::alloc::Global;
use texts::NameTable;

/// An output pin whose function has input pins alone.
#[tactic(auto, unfolding(crate::specs::Combs::comb_out))]
fn comb_out(alloc: Global, inputs: &NameTable, out: &OutPin) -> Result<CombOut, Misfit>
    ensures { Gives Fails (λ x. x) result (spec.comb_out inputs.now out.now) }
{
    let Some(expr) = &out.func else {
        return Err(Misfit::Other);
    };
    let Some(func) = resolve(alloc, expr, inputs, None)? else {
        return Err(Misfit::Other);
    };
    let name = out.name.copy(alloc)?;
    Ok(CombOut { name, func })
}

/// The output pins, where each has a function of input pins.
#[tactic(auto, using(texts::proofs::EachLemmas::each_none, texts::proofs::EachLemmas::each_more, texts::proofs::EachLemmas::each_bad))]
pub fn comb_outs(alloc: Global, inputs: &NameTable, outs: &[OutPin]) -> Result<Seq<CombOut>, Misfit>
    ensures { Gives Fails (λ x. x) result (spec.comb_outs inputs.now outs.now) }
{
    let mut found = Seq::new(alloc);
    for out in outs {
        let out = comb_out(alloc, inputs, out)?;
        found.push(out)?;
    }
    Ok(found)
}
