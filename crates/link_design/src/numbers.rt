//! Gates and registers by the numbers of the design's nets.
ghost use Rattle.std.specs.Prelude.{◌≡◌, ◌++◌, ◌<◌, IfOk, OnOk, All, length, map, flat_map};
ghost use Rattle.net_model.specs.Netlist.{AllBelow};
ghost use Rattle.link_defs.specs.Circuits.{part_regs};
ghost use Rattle.link_defs.specs.Designs.{number_by, moved, moved_out, moved_reg};
ghost use Rattle.link_defs.specs.Designs.{gate_at as gate_in};
ghost use Rattle.link_design.specs.Lawful.{IsLawfulPart};
ghost use Rattle.link_design.specs.Numbered.{IsNumbering, IsWithin};

use crate::kept::gate_at;
use link_defs::Part;
use net_model::{Func, Gate, Reg, RegOut};
use sdcv_base::Seq;
use std::alloc::{AllocError, Global};

/// The drivers of the design's nets, and for each net of the circuit the place of its driver, which is its number.
#[derive(Drop)]
pub(crate) struct NetNumbers {
    pub(crate) drivers: Seq<usize>,
    pub(crate) row: Seq<usize>,
}

/// The number of a net.
fn number(numbers: &NetNumbers, net: usize) -> usize
    requires row { IsNumbering numbers.now }
    requires net { net < length numbers.now.row }
    ensures { result ≡ number_by numbers.now.drivers net }
{
    numbers.row.at(net)
}

/// The numbers of nets.
pub(crate) fn numbers_of(
    alloc: Global,
    numbers: &NetNumbers,
    nets: &Seq<usize>,
) -> Result<Seq<usize>, AllocError>
    requires row { IsNumbering numbers.now }
    requires nets { AllBelow (length numbers.now.row) nets.now }
    ensures { IfOk result (λ list. list ≡ map (number_by numbers.now.drivers) nets.now) }
{
    let mut list = Seq::new(alloc);
    for k in 0..nets.len() {
        let net = nets.at(k);
        list.push(number(numbers, net))?;
    }
    Ok(list)
}

/// A gate by numbers.
fn numbered_gate(alloc: Global, numbers: &NetNumbers, gate: &Gate) -> Result<Gate, AllocError>
    requires row { IsNumbering numbers.now }
    requires gate { IsWithin (length numbers.now.row) gate.now }
    ensures { IfOk result (λ numbered. numbered ≡ moved (number_by numbers.now.drivers) gate.now) }
{
    let func = gate.func.copy(alloc)?;
    let ins = numbers_of(alloc, numbers, &gate.ins)?;
    let out = number(numbers, gate.out);
    Ok(Gate { func, ins, out })
}

/// The gates at some places by numbers.
pub(crate) fn numbered_gates(
    alloc: Global,
    numbers: &NetNumbers,
    gates: &Seq<Gate>,
    kept: &Seq<usize>,
) -> Result<Seq<Gate>, AllocError>
    requires row { IsNumbering numbers.now }
    requires gates { All (λ place. IsWithin (length numbers.now.row) (gate_in gates.now place)) kept.now }
    requires kept { AllBelow (length gates.now) kept.now }
    ensures { IfOk result (λ list. list ≡ map (moved (number_by numbers.now.drivers)) (map (gate_in gates.now) kept.now)) }
{
    let mut list = Seq::new(alloc);
    for place in kept.as_slice() {
        list.push(numbered_gate(alloc, numbers, gate_at(gates, *place))?)?;
    }
    Ok(list)
}

/// The outputs of a register by numbers.
fn numbered_outs(
    alloc: Global,
    numbers: &NetNumbers,
    outs: &Seq<RegOut>,
) -> Result<Seq<RegOut>, AllocError>
    requires row { IsNumbering numbers.now }
    requires outs { All (λ out. out.net < length numbers.now.row) outs.now }
    ensures { IfOk result (λ list. list ≡ map (moved_out (number_by numbers.now.drivers)) outs.now) }
{
    let mut list = Seq::new(alloc);
    for out in outs.as_slice() {
        let net = number(numbers, out.net);
        list.push(RegOut {
            net,
            inverted: out.inverted,
        })?;
    }
    Ok(list)
}

/// An equal function, where there is one.
fn copy_if_any(alloc: Global, func: &Option<Func>) -> Result<Option<Func>, AllocError>
    ensures { IfOk result (λ copied. copied ≡ func.now) }
{
    match func {
        Some(func) => Ok(Some(func.copy(alloc)?)),
        None => Ok(None),
    }
}

/// A register by numbers.
fn numbered_reg(alloc: Global, numbers: &NetNumbers, reg: &Reg) -> Result<Reg, AllocError>
    requires row { IsNumbering numbers.now }
    requires ins { AllBelow (length numbers.now.row) reg.now.ins }
    requires outs { All (λ out. out.net < length numbers.now.row) reg.now.outs }
    ensures { IfOk result (λ numbered. numbered ≡ moved_reg (number_by numbers.now.drivers) reg.now) }
{
    let ins = numbers_of(alloc, numbers, &reg.ins)?;
    let outs = numbered_outs(alloc, numbers, &reg.outs)?;
    Ok(Reg {
        next: reg.next.copy(alloc)?,
        clear: copy_if_any(alloc, &reg.clear)?,
        preset: copy_if_any(alloc, &reg.preset)?,
        both: reg.both,
        ins,
        outs,
    })
}

/// Appends the register that a part is, if it is one, by numbers.
fn push_reg(
    alloc: Global,
    numbers: &NetNumbers,
    list: &mut Seq<Reg>,
    part: &Part,
) -> Result<(), AllocError>
    requires row { IsNumbering numbers.now }
    requires part { IsLawfulPart (length numbers.now.row) part.now }
    ensures { OnOk result (list.new ≡ list.old ++ map (moved_reg (number_by numbers.now.drivers)) (part_regs part.now)) }
{
    match part {
        Part::Comb { .. } => Ok(()),
        Part::Flop { reg, .. } => {
            list.push(numbered_reg(alloc, numbers, reg)?)?;
            Ok(())
        }
        Part::Gate { .. } => Ok(()),
    }
}

/// The registers of the parts by numbers, in their order.
pub(crate) fn numbered_regs(
    alloc: Global,
    numbers: &NetNumbers,
    parts: &Seq<Part>,
) -> Result<Seq<Reg>, AllocError>
    requires row { IsNumbering numbers.now }
    requires parts { All (IsLawfulPart (length numbers.now.row)) parts.now }
    ensures { IfOk result (λ list. list ≡ map (moved_reg (number_by numbers.now.drivers)) (flat_map part_regs parts.now)) }
{
    let mut list = Seq::new(alloc);
    for part in parts.as_slice() {
        push_reg(alloc, numbers, &mut list, part)?;
    }
    Ok(list)
}
