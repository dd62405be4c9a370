//! What a circuit drives and reads, as lists of nets, and its gates in one list.
ghost use Rattle.std.specs.Prelude.{◌≡◌, ◌++◌, IfOk, OnOk, map, flat_map};
ghost use Rattle.net_model.specs.Netlist.{reg_nets, gate_nets};
ghost use Rattle.net_model.specs.declared.netlist.Gate.{Gate as GateRecord};
ghost use Rattle.link_defs.specs.Circuits.{part_gates, part_gated, part_reads, part_data, all_drivers, all_gates, all_reads, all_data};
ghost use Rattle.link_design.specs.Lists.{part_reg_nets, part_marks, data_sources, all_sources, all_marks};

use link_defs::{Circuit, Part};
use net_model::{Gate, Reg};
use sdcv_base::Seq;
use std::alloc::{AllocError, Global};

/// Appends nets.
fn push_all(nets: &mut Seq<usize>, more: &[usize]) -> Result<(), AllocError>
    ensures { OnOk result (nets.new ≡ nets.old ++ more.now) }
{
    for net in more {
        nets.push(*net)?;
    }
    Ok(())
}

/// Appends the nets that a register drives.
fn push_reg_nets(nets: &mut Seq<usize>, reg: &Reg) -> Result<(), AllocError>
    ensures { OnOk result (nets.new ≡ nets.old ++ reg_nets reg.now) }
{
    for out in reg.outs.as_slice() {
        nets.push(out.net)?;
    }
    Ok(())
}

/// Appends the nets that a part drives as a register.
fn push_part_reg_nets(nets: &mut Seq<usize>, part: &Part) -> Result<(), AllocError>
    ensures { OnOk result (nets.new ≡ nets.old ++ part_reg_nets part.now) }
{
    match part {
        Part::Comb { .. } => Ok(()),
        Part::Flop { reg, .. } => push_reg_nets(nets, reg),
        Part::Gate { .. } => Ok(()),
    }
}

/// The nets that data inputs and registers drive, one entry for each driver.
pub(crate) fn data_sources(alloc: Global, circuit: &Circuit) -> Result<Seq<usize>, AllocError>
    ensures { IfOk result (λ nets. nets ≡ data_sources circuit.now) }
{
    let mut nets = circuit.inputs.copy(alloc)?;
    for part in circuit.parts.as_slice() {
        push_part_reg_nets(&mut nets, part)?;
    }
    Ok(nets)
}

/// Appends the net that a part drives as a clock gate.
fn push_part_gated(nets: &mut Seq<usize>, part: &Part) -> Result<(), AllocError>
    ensures { OnOk result (nets.new ≡ nets.old ++ part_gated part.now) }
{
    match part {
        Part::Comb { .. } => Ok(()),
        Part::Flop { .. } => Ok(()),
        Part::Gate { out, .. } => {
            nets.push(*out)?;
            Ok(())
        }
    }
}

/// Appends the nets that clock gates drive.
fn push_gated(nets: &mut Seq<usize>, parts: &[Part]) -> Result<(), AllocError>
    ensures { OnOk result (nets.new ≡ nets.old ++ flat_map part_gated parts.now) }
{
    for part in parts {
        push_part_gated(nets, part)?;
    }
    Ok(())
}

/// The nets that the clock port, data inputs, registers and clock gates drive.
pub(crate) fn all_sources(alloc: Global, circuit: &Circuit) -> Result<Seq<usize>, AllocError>
    ensures { IfOk result (λ nets. nets ≡ all_sources circuit.now) }
{
    let mut nets = circuit.clocks.copy(alloc)?;
    let more = data_sources(alloc, circuit)?;
    push_all(&mut nets, more.as_slice())?;
    push_gated(&mut nets, circuit.parts.as_slice())?;
    Ok(nets)
}

/// These nets, and those that the gates drive.
pub(crate) fn with_gate_nets(
    alloc: Global,
    sources: &Seq<usize>,
    gates: &Seq<Gate>,
) -> Result<Seq<usize>, AllocError>
    ensures { IfOk result (λ nets. nets ≡ sources.now ++ gate_nets gates.now) }
{
    let mut nets = sources.copy(alloc)?;
    for gate in gates.as_slice() {
        nets.push(gate.out)?;
    }
    Ok(nets)
}

/// Appends the nets that gates drive.
fn push_gate_nets(nets: &mut Seq<usize>, gates: &[Gate]) -> Result<(), AllocError>
    ensures { OnOk result (nets.new ≡ nets.old ++ gate_nets gates.now) }
{
    for gate in gates {
        nets.push(gate.out)?;
    }
    Ok(())
}

/// Appends the nets that a part drives by gates.
fn push_part_gates(nets: &mut Seq<usize>, part: &Part) -> Result<(), AllocError>
    ensures { OnOk result (nets.new ≡ nets.old ++ gate_nets (part_gates part.now)) }
{
    match part {
        Part::Comb { gates, .. } => push_gate_nets(nets, gates.as_slice()),
        Part::Flop { .. } => Ok(()),
        Part::Gate { .. } => Ok(()),
    }
}

/// Appends the nets that parts drive by gates.
fn push_all_gates(nets: &mut Seq<usize>, parts: &[Part]) -> Result<(), AllocError>
    ensures { OnOk result (nets.new ≡ nets.old ++ gate_nets (flat_map part_gates parts.now)) }
{
    for part in parts {
        push_part_gates(nets, part)?;
    }
    Ok(())
}

/// The nets that something drives, one entry for each driver.
pub fn all_drivers(alloc: Global, circuit: &Circuit) -> Result<Seq<usize>, AllocError>
    ensures { IfOk result (λ nets. nets ≡ all_drivers circuit.now) }
{
    let mut nets = circuit.clocks.copy(alloc)?;
    let more = data_sources(alloc, circuit)?;
    push_all(&mut nets, more.as_slice())?;
    push_all_gates(&mut nets, circuit.parts.as_slice())?;
    push_gated(&mut nets, circuit.parts.as_slice())?;
    Ok(nets)
}

/// Appends the nets that the pins of a part read.
fn push_reads(nets: &mut Seq<usize>, part: &Part) -> Result<(), AllocError>
    ensures { OnOk result (nets.new ≡ nets.old ++ part_reads part.now) }
{
    match part {
        Part::Comb { ins, .. } => push_all(nets, ins.as_slice()),
        Part::Flop { clock, reg } => {
            nets.push(*clock)?;
            push_all(nets, reg.ins.as_slice())
        }
        Part::Gate { clock, enables, .. } => {
            nets.push(*clock)?;
            push_all(nets, enables.as_slice())
        }
    }
}

/// The nets that output ports and pins read, one entry for each reader.
pub fn all_reads(alloc: Global, circuit: &Circuit) -> Result<Seq<usize>, AllocError>
    ensures { IfOk result (λ nets. nets ≡ all_reads circuit.now) }
{
    let mut nets = circuit.outputs.copy(alloc)?;
    for part in circuit.parts.as_slice() {
        push_reads(&mut nets, part)?;
    }
    Ok(nets)
}

/// Appends the nets that a part reads as data.
fn push_data(nets: &mut Seq<usize>, part: &Part) -> Result<(), AllocError>
    ensures { OnOk result (nets.new ≡ nets.old ++ part_data part.now) }
{
    match part {
        Part::Comb { buffer, ins, .. } => {
            if *buffer {
                return Ok(());
            }
            push_all(nets, ins.as_slice())
        }
        Part::Flop { reg, .. } => push_all(nets, reg.ins.as_slice()),
        Part::Gate { enables, .. } => push_all(nets, enables.as_slice()),
    }
}

/// The nets that output ports and pins read as data.
pub(crate) fn all_data(alloc: Global, circuit: &Circuit) -> Result<Seq<usize>, AllocError>
    ensures { IfOk result (λ nets. nets ≡ all_data circuit.now) }
{
    let mut nets = circuit.outputs.copy(alloc)?;
    for part in circuit.parts.as_slice() {
        push_data(&mut nets, part)?;
    }
    Ok(nets)
}

/// An equal gate.
fn copy_gate(alloc: Global, gate: &Gate) -> Result<Gate, AllocError>
    ensures { IfOk result (λ copied. copied ≡ gate.now) }
{
    let func = gate.func.copy(alloc)?;
    let ins = gate.ins.copy(alloc)?;
    Ok(Gate {
        func,
        ins,
        out: gate.out,
    })
}

/// Appends copies of the gates of a part.
fn push_gates(alloc: Global, list: &mut Seq<Gate>, part: &Part) -> Result<(), AllocError>
    ensures { OnOk result (list.new ≡ list.old ++ part_gates part.now) }
{
    match part {
        Part::Comb { gates, .. } => push_copies(alloc, list, gates.as_slice()),
        Part::Flop { .. } => Ok(()),
        Part::Gate { .. } => Ok(()),
    }
}

/// Appends copies of gates.
fn push_copies(alloc: Global, list: &mut Seq<Gate>, gates: &[Gate]) -> Result<(), AllocError>
    ensures { OnOk result (list.new ≡ list.old ++ gates.now) }
{
    for gate in gates {
        list.push(copy_gate(alloc, gate)?)?;
    }
    Ok(())
}

/// The gates of the parts, in their order.
pub(crate) fn gates_of(alloc: Global, circuit: &Circuit) -> Result<Seq<Gate>, AllocError>
    ensures { IfOk result (λ gates. gates ≡ all_gates circuit.now) }
{
    let mut list = Seq::new(alloc);
    for part in circuit.parts.as_slice() {
        push_gates(alloc, &mut list, part)?;
    }
    Ok(list)
}

/// Appends a mark for each gate.
fn push_marks(marks: &mut Seq<bool>, buffer: bool, gates: &[Gate]) -> Result<(), AllocError>
    ensures { OnOk result (marks.new ≡ marks.old ++ map (λ (_ : GateRecord). buffer) gates.now) }
{
    for _gate in gates {
        marks.push(buffer)?;
    }
    Ok(())
}

/// Appends a mark for each gate of a part.
fn push_part_marks(marks: &mut Seq<bool>, part: &Part) -> Result<(), AllocError>
    ensures { OnOk result (marks.new ≡ marks.old ++ part_marks part.now) }
{
    match part {
        Part::Comb { buffer, gates, .. } => push_marks(marks, *buffer, gates.as_slice()),
        Part::Flop { .. } => Ok(()),
        Part::Gate { .. } => Ok(()),
    }
}

/// For each gate whether it is a buffer's or an inverter's.
pub(crate) fn marks_of(alloc: Global, circuit: &Circuit) -> Result<Seq<bool>, AllocError>
    ensures { IfOk result (λ marks. marks ≡ all_marks circuit.now) }
{
    let mut marks = Seq::new(alloc);
    for part in circuit.parts.as_slice() {
        push_part_marks(&mut marks, part)?;
    }
    Ok(marks)
}
