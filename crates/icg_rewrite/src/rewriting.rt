//! The design with enables for its clock gates.
ghost use Rattle.std.specs.Prelude.{◌≡◌, IfOk, IfErr, OnOk};
ghost use Rattle.net_model.specs.Netlist.{IsSound};
ghost use Rattle.icg_rewrite.specs.Faults.{HasRoom, IsRewriteCause};
ghost use Rattle.icg_rewrite.specs.Gated.{AreGated};
ghost use Rattle.icg_rewrite.specs.Rewritten.{rewritten};

use crate::clock_gates::Gated;
use crate::enables::gates_with_enables;
use crate::faults::RewriteFault;
use crate::registers::gated_regs;
use crate::rooms::check_room;
use net_model::Design;
use std::alloc::{AllocError, Global};

/// The design with an enable for each register that stands behind a clock gate, in place of the gate.
///
/// Nets, gates and registers of the design keep their numbers. Each clock gate gives one net and one gate more, in their
/// order, after those of the design; the net is the last pin of the registers behind that clock gate.
pub fn rewrite(alloc: Global, gated: &Gated) -> Result<Design, RewriteFault>
    requires { AreGated gated.now }
    ensures ok { IfOk result (λ design. design ≡ rewritten gated.now) }
    ensures sound { IfOk result IsSound }
    ensures err { IfErr result (IsRewriteCause gated.now) }
    ensures none { OnOk result (HasRoom gated.now) }
{
    check_room(gated)?;
    Ok(with_enables(alloc, gated)?)
}

/// The rewritten design, for which there is room.
#[tactic(auto, using(crate::proofs::Lists::rewritten_is))]
fn with_enables(alloc: Global, gated: &Gated) -> Result<Design, AllocError>
    requires are { AreGated gated.now }
    requires room { HasRoom gated.now }
    ensures { IfOk result (λ design. design ≡ rewritten gated.now) }
{
    let design = &gated.design;
    let gates = gates_with_enables(alloc, gated)?;
    let regs = gated_regs(alloc, gated)?;
    let inputs = design.inputs.copy(alloc)?;
    let outputs = design.outputs.copy(alloc)?;
    let fixed = design.fixed.copy(alloc)?;
    let resets = design.resets.copy(alloc)?;
    Ok(Design {
        nets: design.nets + gated.gates.len(),
        gates,
        regs,
        inputs,
        outputs,
        fixed,
        resets,
        reset_len: design.reset_len,
    })
}
