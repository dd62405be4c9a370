//! The design under assumptions.
ghost use Rattle.std.specs.Prelude.{◌≡◌, IfOk, IfErr, OnOk};
ghost use Rattle.net_model.specs.Netlist.{IsSound};
ghost use Rattle.case_inputs.specs.Assumed.{CanFix, assumed_design};
ghost use Rattle.case_inputs.specs.Faults.{HasRoom, IsAssumeCause};

use crate::assumptions::Assumed;
use crate::faults::AssumeFault;
use crate::inputs::{push_assumed, with_fixed, with_new_nets};
use crate::loads::{Owner, assumed_gates, assumed_regs, read_nets};
use crate::rooms::check_room;
use crate::ties::Ties;
use net_model::{Design, Fixed};
use sdcv_base::Seq;
use std::alloc::{AllocError, Global};

/// The design in which `fixed` are fixed besides, and in which the load pins of each assumption read an input with its value.
///
/// Nets, gates, registers, inputs and outputs of the design keep their numbers. Each assumption gives one net and one input more,
/// in their order, after those of the design, and the input is fixed to the value. What drove a load pin stays, and drives the
/// pin's own net, its shadow. Of two assumptions that are of one load pin the first counts.
pub fn assume(
    alloc: Global,
    design: &Design,
    fixed: &Seq<Fixed>,
    assumed: &Seq<Assumed>,
) -> Result<Design, AssumeFault>
    requires sound { IsSound design.now }
    requires fixed { CanFix design.now fixed.now }
    ensures ok { IfOk result (λ more. more ≡ assumed_design design.now fixed.now assumed.now) }
    ensures sound { IfOk result IsSound }
    ensures err { IfErr result (IsAssumeCause design.now assumed.now) }
    ensures none { OnOk result (HasRoom design.now assumed.now) }
{
    check_room(design, assumed)?;
    Ok(under(alloc, design, fixed, assumed)?)
}

/// The design under the assumptions, for which there is room.
#[tactic(auto, using(crate::proofs::Parts::assumed_is))]
fn under(
    alloc: Global,
    design: &Design,
    fixed: &Seq<Fixed>,
    assumed: &Seq<Assumed>,
) -> Result<Design, AllocError>
    requires room { HasRoom design.now assumed.now }
    ensures { IfOk result (λ more. more ≡ assumed_design design.now fixed.now assumed.now) }
{
    let ties = Ties::of(alloc, design.nets, assumed)?;
    let gates = assumed_gates(alloc, &ties, &design.gates)?;
    let regs = assumed_regs(alloc, &ties, &design.regs)?;
    let inputs = with_new_nets(alloc, &design.inputs, design.nets, assumed)?;
    let outputs = read_nets(alloc, &ties, Owner::Ports, &design.outputs)?;
    let mut held = with_fixed(alloc, &design.fixed, fixed)?;
    push_assumed(&mut held, design.inputs.len(), assumed)?;
    let resets = design.resets.copy(alloc)?;
    Ok(Design {
        nets: design.nets + assumed.len(),
        gates,
        regs,
        inputs,
        outputs,
        fixed: held,
        resets,
        reset_len: design.reset_len,
    })
}
