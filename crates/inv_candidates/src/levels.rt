//! The next level of a group.
ghost use Rattle.std.specs.Prelude.{◌≡◌, ◌<◌, ◌≤◌, ◌↔◌, ℕ, IsTrue, MatchBool, OnOk, length, Contains};
ghost use Rattle.net_model.specs.Netlist.{AllBelow, IsSound, reg_nets};
ghost use Rattle.inv_candidates.specs.Leading.{HasMark, ShowsMark};
ghost use Rattle.inv_candidates.specs.Levels.{IsGrown};
ghost use Rattle.inv_candidates.specs.Near.{FeedsSome};

use crate::sweeps::leading_nets;
use net_model::{Design, Reg};
use sdcv_base::Seq;
use std::alloc::{AllocError, Global};

/// So many registers a group has at most.
const MOST_REGS: usize = 16;

/// Adds the registers that feed one of a group and are not in it, in ascending order, up to the most that a group has.
pub(crate) fn add_level(
    alloc: Global,
    design: &Design,
    group: &mut Seq<usize>,
) -> Result<(), AllocError>
    requires sound { IsSound design.now }
    requires regs { AllBelow (length design.now.regs) group.old }
    requires few { length group.old ≤ 16 }
    ensures { OnOk result (IsGrown (FeedsSome design.now group.old) group.old group.new) }
{
    let marks = leading_nets(alloc, design, group)?;
    add_marked(design, &marks, group)?;
    Ok(())
}

/// Adds the registers that are not in a group and have a marked output net.
fn add_marked(design: &Design, marks: &Seq<bool>, group: &mut Seq<usize>) -> Result<(), AllocError>
    requires sound { IsSound design.now }
    requires len { length marks.now ≡ design.now.nets }
    requires few { length group.old ≤ 16 }
    ensures { OnOk result (IsGrown (ShowsMark design.now marks.now) group.old group.new) }
{
    for reg in 0..design.regs.len() {
        if is_next(design, marks, group, reg) {
            group.push(reg)?;
        }
    }
    Ok(())
}

/// Whether there is room for a register that has a marked output net and is not in a group.
fn is_next(design: &Design, marks: &Seq<bool>, group: &Seq<usize>, reg: usize) -> bool
    requires sound { IsSound design.now }
    requires len { length marks.now ≡ design.now.nets }
    requires reg { reg < length design.now.regs }
    ensures { MatchBool result ((length group.now < 16) × ShowsMark design.now marks.now reg × ¬ Contains group.now reg)
        (length group.now < 16 → ShowsMark design.now marks.now reg → Contains group.now reg) }
{
    if group.len() >= MOST_REGS {
        return false;
    }
    if shows_mark(design.regs.item(reg), marks) {
        return !has(group, reg);
    }
    false
}

/// Whether an output net of a register is marked.
fn shows_mark(reg: &Reg, marks: &Seq<bool>) -> bool
    requires { AllBelow (length marks.now) (reg_nets reg.now) }
    ensures { IsTrue result ↔ ((net : ℕ) × Contains (reg_nets reg.now) net × HasMark marks.now net) }
{
    for k in 0..reg.outs.len() {
        if marks.at(reg.outs.at(k).net) {
            return true;
        }
    }
    false
}

/// Whether a register is in the list.
fn has(regs: &Seq<usize>, reg: usize) -> bool
    ensures { IsTrue result ↔ Contains regs.now reg }
{
    for k in 0..regs.len() {
        if regs.at(k) == reg {
            return true;
        }
    }
    false
}
