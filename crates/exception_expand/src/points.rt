//! The starts and the ends of a design in its order.
ghost use Rattle.std.specs.Prelude.{◌≡◌, ◌≤◌, ◌++◌, ℕ, List, length, filter, Option, Some, IfOk, OnOk, slice_get};
ghost use Rattle.net_model.specs.Netlist.{IsSound};
ghost use Rattle.net_model.specs.declared.netlist.Design.{Design as DesignRecord};
ghost use Rattle.exception_expand.specs.Points as spec;
ghost use Rattle.exception_expand.specs.Choices.{ArePointsOf, has_begun};
ghost use Rattle.sdc_objects.specs.Standing.{all_reg_starts, all_reg_ends};
ghost use Rattle.sdcv_base.specs.Seqs.{where_true};

use crate::driven::driven;
use linked_types::Linked;
use net_model::{Design, End, Start};
use sdc_objects::Column;
use sdcv_base::Seq;
use std::alloc::{AllocError, Global};

/// The registers, the inputs and the outputs of a design, and at which inputs paths begin, made once for it.
///
/// What always holds of a design's (`ArePointsOf`):
/// - starts, ends: they are all registers and inputs, and all ends, in the order of the design.
/// - ports: so many inputs are bits of ports, which come first.
/// - driven: for each input, whether a clocked cell drives it which is cut out.
#[derive(Drop)]
pub struct Points {
    pub(crate) starts: Seq<Start>,
    pub(crate) ends: Seq<End>,
    pub(crate) ports: usize,
    pub(crate) driven: Seq<bool>,
}

impl Points {
    /// Those of this design.
    pub fn of(alloc: Global, linked: &Linked) -> Result<Points, AllocError>
        ensures { IfOk result (ArePointsOf linked.now) }
    {
        let starts = Start::all_of(alloc, &linked.design)?;
        let ends = End::all_of(alloc, &linked.design)?;
        let ports = linked.names.ins.len();
        let driven = driven(alloc, &linked.names.cells, linked.design.inputs.len())?;
        Ok(Points {
            starts,
            ends,
            ports,
            driven,
        })
    }

    /// Those of some registers and inputs at which paths begin.
    pub(crate) fn begun(&self, alloc: Global, starts: &Seq<Start>) -> Result<Seq<Start>, AllocError>
        ensures { IfOk result (λ found. found ≡ filter (has_begun self.now) starts.now) }
    {
        let mut found = Seq::new(alloc);
        for k in 0..starts.len() {
            let start = starts.at(k);
            add_where(self.has_begun(start), start, &mut found)?;
        }
        Ok(found)
    }

    fn has_begun(&self, start: Start) -> bool
        ensures { result ≡ has_begun self.now start }
    {
        match start {
            Start::Reg(_) => true,
            Start::Input(input) => input < self.ports || is_marked(&self.driven, input),
        }
    }
}

fn add_where(wanted: bool, start: Start, found: &mut Seq<Start>) -> Result<(), AllocError>
    ensures { OnOk result (found.new ≡ found.old ++ where_true wanted start) }
{
    if wanted {
        found.push(start)?;
    }
    Ok(())
}

fn is_marked(marks: &Seq<bool>, place: usize) -> bool
    ensures { result ≡ spec.has_mark marks.now place }
{
    marks.as_slice().get(place).copied().unwrap_or(false)
}

/// What can stand in a list of an exception, and has a place in the order of a design: a register or an input, or an end.
pub trait Listed: Column {
    ghost all: { DesignRecord → List Self };

    /// All of them, in the order of the design.
    fn all_of(alloc: Global, design: &Design) -> Result<Seq<Self>, AllocError>
        ensures { IfOk result (λ found. found ≡ all design.now) };

    /// Its place among them.
    fn place_in(self, design: &Design) -> Option<usize>
        requires { IsSound design.now }
        ensures here { (k : ℕ) → result ≡ Some k → slice_get (all design.now) k ≡ Some self }
        ensures only { (k : ℕ) → slice_get (all design.now) k ≡ Some self → result ≡ Some k };
}

impl Listed for Start {
    ghost all = { spec.start_points };

    fn all_of(alloc: Global, design: &Design) -> Result<Seq<Start>, AllocError> {
        let mut starts = Seq::new(alloc);
        push_reg_starts(design, &mut starts)?;
        push_inputs(design, &mut starts)?;
        Ok(starts)
    }

    fn place_in(self, design: &Design) -> Option<usize> {
        match self {
            Start::Reg(reg) => reg_place(design, reg),
            Start::Input(input) => port_place(design, &design.inputs, input),
        }
    }
}

impl Listed for End {
    ghost all = { spec.all_ends };

    fn all_of(alloc: Global, design: &Design) -> Result<Seq<End>, AllocError> {
        let mut ends = Seq::new(alloc);
        push_reg_ends(design, &mut ends)?;
        push_outputs(design, &mut ends)?;
        Ok(ends)
    }

    fn place_in(self, design: &Design) -> Option<usize> {
        match self {
            End::Reg(reg) => reg_place(design, reg),
            End::Output(output) => port_place(design, &design.outputs, output),
        }
    }
}

fn push_reg_starts(design: &Design, starts: &mut Seq<Start>) -> Result<(), AllocError>
    ensures { OnOk result (starts.new ≡ starts.old ++ all_reg_starts design.now) }
{
    for reg in 0..design.regs.len() {
        starts.push(Start::Reg(reg))?;
    }
    Ok(())
}

fn push_inputs(design: &Design, starts: &mut Seq<Start>) -> Result<(), AllocError>
    ensures { OnOk result (starts.new ≡ starts.old ++ spec.input_starts design.now.inputs) }
{
    for input in 0..design.inputs.len() {
        starts.push(Start::Input(input))?;
    }
    Ok(())
}

fn push_reg_ends(design: &Design, ends: &mut Seq<End>) -> Result<(), AllocError>
    ensures { OnOk result (ends.new ≡ ends.old ++ all_reg_ends design.now) }
{
    for reg in 0..design.regs.len() {
        ends.push(End::Reg(reg))?;
    }
    Ok(())
}

fn push_outputs(design: &Design, ends: &mut Seq<End>) -> Result<(), AllocError>
    ensures { OnOk result (ends.new ≡ ends.old ++ spec.output_ends design.now.outputs) }
{
    for output in 0..design.outputs.len() {
        ends.push(End::Output(output))?;
    }
    Ok(())
}

// The place of a register, which are listed first.
fn reg_place(design: &Design, reg: usize) -> Option<usize>
    ensures { result ≡ spec.place_below reg 0 (length design.now.regs) }
{
    if reg < design.regs.len() {
        Some(reg)
    } else {
        None
    }
}

// The place of one of these ports, which are listed after the registers.
fn port_place(design: &Design, ports: &Seq<usize>, port: usize) -> Option<usize>
    requires regs { length design.now.regs ≤ 20000 }
    requires ports { length ports.now ≤ 20000 }
    ensures { result ≡ spec.place_below port (length design.now.regs) (length ports.now) }
{
    if port < ports.len() {
        Some(design.regs.len() + port)
    } else {
        None
    }
}
