//! Registers with enables.
ghost use Rattle.std.specs.Prelude.{◌≡◌, ◌+◌, ◌≤◌, IfOk, length};
ghost use Rattle.net_model.specs.Mentions.{IsRegOver};
ghost use Rattle.icg_rewrite.specs.Faults.{HasRoom};
ghost use Rattle.icg_rewrite.specs.Gated.{AreGated, IsBelowIfAny};
ghost use Rattle.icg_rewrite.specs.Rewritten.{gated_reg, gated_regs};
ghost use Rattle.std.specs.Prelude.{Some, None};

use crate::clock_gates::Gated;
use crate::functions::{copy_if_any, next_or_own, raised_if_any};
use net_model::Reg;
use sdcv_base::Seq;
use std::alloc::{AllocError, Global};

/// An equal register.
fn copy_reg(alloc: Global, reg: &Reg) -> Result<Reg, AllocError>
    ensures { IfOk result (λ copied. copied ≡ reg.now) }
{
    Ok(Reg {
        next: reg.next.copy(alloc)?,
        clear: copy_if_any(alloc, &reg.clear)?,
        preset: copy_if_any(alloc, &reg.preset)?,
        both: reg.both,
        ins: reg.ins.copy(alloc)?,
        outs: reg.outs.copy(alloc)?,
    })
}

/// The register with this net as its enable.
fn enabled_reg(alloc: Global, reg: &Reg, enable: usize) -> Result<Reg, AllocError>
    requires over { IsRegOver (length reg.now.ins + 1) reg.now }
    requires few { length reg.now.ins ≤ 6 }
    ensures { IfOk result (λ enabled. enabled ≡ gated_reg 0 reg.now (Some enable)) }
{
    // The own bit's place is that of the enable from here on, and so also in the controls.
    let place = reg.ins.len();
    let mut ins = reg.ins.copy(alloc)?;
    ins.push(enable)?;
    Ok(Reg {
        next: next_or_own(alloc, &reg.next, place)?,
        clear: raised_if_any(alloc, &reg.clear, place)?,
        preset: raised_if_any(alloc, &reg.preset, place)?,
        both: reg.both,
        ins,
        outs: reg.outs.copy(alloc)?,
    })
}

/// The register, with an enable where it stands behind a clock gate.
fn gated_reg(alloc: Global, nets: usize, reg: &Reg, gate: Option<usize>) -> Result<Reg, AllocError>
    requires over { IsRegOver (length reg.now.ins + 1) reg.now }
    requires few { length reg.now.ins ≤ 6 }
    requires nets { nets ≤ 200000 }
    requires gate { IsBelowIfAny 200001 gate }
    ensures { IfOk result (λ made. made ≡ gated_reg nets reg.now gate) }
{
    match gate {
        None => copy_reg(alloc, reg),
        Some(gate) => enabled_reg(alloc, reg, nets + gate),
    }
}

/// The registers of the design, with enables where they stand behind clock gates.
pub(crate) fn gated_regs(alloc: Global, gated: &Gated) -> Result<Seq<Reg>, AllocError>
    requires are { AreGated gated.now }
    requires room { HasRoom gated.now }
    ensures { IfOk result (λ regs. regs ≡ gated_regs gated.now.design.nets gated.now.design.regs gated.now.of) }
{
    let design = &gated.design;
    let mut regs = Seq::new(alloc);
    for r in 0..design.regs.len() {
        let reg = gated_reg(alloc, design.nets, design.regs.item(r), gated.of.at(r))?;
        regs.push(reg)?;
    }
    Ok(regs)
}
