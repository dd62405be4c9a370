//! Whether a design is sound.
ghost use Rattle.std.specs.Prelude.{◌≡◌, ◌≢◌, ℕ, ◌<◌, ◌≤◌, length, All, Some, slice_get, MatchOption, OnOk, IfErr, count_by, ◌==◌};
ghost use Rattle.net_model.specs.Netlist.{IsSound, IsGateInRange, IsRegInRange, AllBelow, held_inputs};
ghost use Rattle.net_model.specs.Faults.{IsOutOfRange, ArePortsInRange, IsCause};
ghost use Rattle.net_model.specs.Markings.{AddsMarks, IsMarkedTwice};
ghost use Rattle.net_model.specs.declared.netlist.Gate.{Gate as GateRecord};
ghost use Rattle.net_model.specs.declared.netlist.Reg.{Reg as RegRecord};

use crate::drivers::check_drivers;
use crate::faults::DesignFault;
use crate::limits::{MOST_PINS, above, size_above};
use crate::marks::mark_settings;
use crate::netlist::Design;
use crate::ranges::{gate_beyond, input_beyond, number_beyond, reg_beyond};
use sdcv_base::Seq;
use std::alloc::Global;

/// Checks the pins and the function of one gate.
fn check_gate(design: &Design, k: usize) -> Result<(), DesignFault>
    requires { k < length design.now.gates }
    ensures ok { OnOk result ((g : GateRecord) → slice_get design.now.gates k ≡ Some g → IsGateInRange design.now g) }
    ensures err { IfErr result (IsCause design.now) }
{
    let gate = design.gates.item(k);
    if let Some(number) = above(MOST_PINS, gate.ins.len()) {
        return Err(DesignFault::Limit(number));
    }
    match gate_beyond(design, gate) {
        None => Ok(()),
        Some(number) => Err(DesignFault::PlaceOutOfRange(number)),
    }
}

fn check_gates(design: &Design) -> Result<(), DesignFault>
    ensures ok { OnOk result (All (IsGateInRange design.now) design.now.gates) }
    ensures err { IfErr result (IsCause design.now) }
{
    for k in 0..design.gates.len() {
        check_gate(design, k)?;
    }
    Ok(())
}

/// Checks the pins, the outputs and the functions of one register.
fn check_reg(design: &Design, r: usize) -> Result<(), DesignFault>
    requires { r < length design.now.regs }
    ensures ok { OnOk result ((reg : RegRecord) → slice_get design.now.regs r ≡ Some reg → IsRegInRange design.now reg) }
    ensures err { IfErr result (IsCause design.now) }
{
    let reg = design.regs.item(r);
    if let Some(number) = above(MOST_PINS, reg.ins.len()) {
        return Err(DesignFault::Limit(number));
    }
    match reg_beyond(design, reg) {
        None => Ok(()),
        Some(number) => Err(DesignFault::PlaceOutOfRange(number)),
    }
}

fn check_regs(design: &Design) -> Result<(), DesignFault>
    ensures ok { OnOk result (All (IsRegInRange design.now) design.now.regs) }
    ensures err { IfErr result (IsCause design.now) }
{
    for r in 0..design.regs.len() {
        check_reg(design, r)?;
    }
    Ok(())
}

/// A net of an input or an output, or an input that is given a value, which is out of range.
fn port_beyond(design: &Design) -> Option<usize>
    ensures { MatchOption result (ArePortsInRange design.now) (IsOutOfRange design.now) }
{
    number_beyond(&design.inputs, design.nets)
        .or(number_beyond(&design.outputs, design.nets))
        .or(input_beyond(&design.fixed, design.inputs.len()))
        .or(input_beyond(&design.resets, design.inputs.len()))
}

/// Marks the inputs that are fixed or reset, up to one that is marked already.
fn mark_held(design: &Design, marks: &mut Seq<bool>) -> Option<usize>
    requires { AllBelow (length marks.old) (held_inputs design.now) }
    ensures { MatchOption result (AddsMarks (held_inputs design.now) marks.old marks.new) (IsMarkedTwice (held_inputs design.now) marks.old) }
{
    if let Some(input) = mark_settings(&design.fixed, marks) {
        return Some(input);
    }
    mark_settings(&design.resets, marks)
}

/// Checks that no input is fixed or reset twice, or both.
fn check_held(alloc: Global, design: &Design) -> Result<(), DesignFault>
    requires { AllBelow (length design.now.inputs) (held_inputs design.now) }
    ensures ok { OnOk result ((i : ℕ) → i < length design.now.inputs → count_by (λ m. m == i) (held_inputs design.now) ≤ 1) }
    ensures err { IfErr result (IsCause design.now) }
{
    let mut marks = Seq::filled(alloc, false, design.inputs.len())?;
    match mark_held(design, &mut marks) {
        None => Ok(()),
        Some(input) => Err(DesignFault::Twice(input)),
    }
}

impl Design {
    /// Whether the design is sound, and if not, why not.
    ///
    /// Sound is a design whose numbers are all in range, in which each net has one driver and each gate reads only nets
    /// that an input, a register or an earlier gate drives, which fixes or resets no input twice, and which keeps the
    /// limits: 200,000 nets, 20,000 registers, 20,000 inputs, 20,000 outputs, 6 pins of a gate or a register, and 64
    /// reset cycles. Where it has several faults, any may be told.
    #[tactic(auto, using(crate::proofs::Unsound::unsound))]
    pub fn check(&self, alloc: Global) -> Result<(), DesignFault>
        ensures ok { OnOk result (IsSound self.now) }
        ensures err { IfErr result (IsCause self.now) }
        ensures unsound { IfErr result (λ fault. fault ≢ DesignFault.Memory → ¬ IsSound self.now) }
    {
        if let Some(number) = size_above(self) {
            return Err(DesignFault::Limit(number));
        }
        check_gates(self)?;
        check_regs(self)?;
        if let Some(number) = port_beyond(self) {
            return Err(DesignFault::PlaceOutOfRange(number));
        }
        check_held(alloc, self)?;
        check_drivers(alloc, self)
    }
}
