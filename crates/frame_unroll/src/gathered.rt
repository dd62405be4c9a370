//! The literals that the functions of gates and registers read, and those of starts and ends.
ghost use Rattle.std.specs.Prelude.{◌≡◌, ◌<◌, ◌≤◌, ◌+◌, ◌^◌, length, map, IfOk, OnOk};
ghost use Rattle.net_model.specs.Netlist.{AllBelow, IsSound};
ghost use Rattle.std.specs.Prelude.{true};
ghost use Rattle.query_model.specs.Reads.{bit_key, read_base};
ghost use Rattle.query_model.specs.Defined.{with_own};
ghost use Rattle.query_model.specs.Defined as defined;
ghost use Rattle.frame_unroll.specs.Drivers.{AreDrivers};
ghost use Rattle.frame_unroll.specs.Reading.{IsSubject};
ghost use Rattle.frame_unroll.specs.Gathered.{pin_of, reads_at};

use crate::drivers::{Driver, base_lit};
use crate::reads::pin_lit;
use crate::subjects::Subject;
use net_model::{Design, End, PinRef, Reg, Start};
use query_model::{Key, KeyLit};
use sdcv_base::Seq;
use std::alloc::{AllocError, Global};

/// A gate or a register, by number.
#[derive(Debug, Clone, Copy, PartialEq, Eq)]
pub enum Owner {
    Gate(usize),
    Reg(usize),
}

/// One rail of a layer in a cycle: layer 0 is the cycle itself.
#[derive(Debug, Clone, Copy, PartialEq, Eq)]
pub struct RailAt {
    pub cycle: usize,
    pub layer: usize,
    pub rail: usize,
}

/// The pin of an owner at a place.
pub fn pin_of(owner: Owner, place: usize) -> PinRef
    ensures { result ≡ pin_of owner place }
{
    match owner {
        Owner::Gate(k) => PinRef::GateIn(k, place),
        Owner::Reg(r) => PinRef::RegIn(r, place),
    }
}

/// What pins on these nets read in layer 0, in their order.
pub fn pin_literals(
    alloc: Global,
    design: &Design,
    drivers: &Seq<Driver>,
    cycle: usize,
    ins: &Seq<usize>,
) -> Result<Seq<KeyLit>, AllocError>
    requires sound { IsSound design.now }
    requires drivers { AreDrivers design.now drivers.now }
    requires nets { AllBelow design.now.nets ins.now }
    ensures { IfOk result (λ reads. reads ≡ map (read_base design.now cycle) ins.now) }
{
    let mut reads = Seq::new(alloc);
    for net in ins.as_slice() {
        reads.push(base_lit(design, drivers, cycle, *net))?;
    }
    Ok(reads)
}

/// What an owner's pins on these nets read on a rail of a layer, in their order.
pub fn pin_literals_at(
    alloc: Global,
    subject: &Subject,
    owner: Owner,
    ins: &Seq<usize>,
    rail_at: RailAt,
) -> Result<Seq<KeyLit>, AllocError>
    requires subject { IsSubject subject.now }
    requires nets { AllBelow subject.now.design.now.nets ins.now }
    requires layer { rail_at.layer ≤ length subject.now.claim.now.through + 1 }
    ensures { IfOk result (λ reads. reads ≡ reads_at subject.now.design.now subject.now.claim.now subject.now.moved owner ins.now rail_at) }
{
    let mut reads = Seq::new(alloc);
    for i in 0..ins.len() {
        let key = Key {
            cycle: rail_at.cycle,
            layer: rail_at.layer,
            rail: rail_at.rail,
            point: ins.at(i),
        };
        reads.push(pin_lit(subject, pin_of(owner, i), key))?;
    }
    Ok(reads)
}

/// The literal of a claim's start in layer 0 of a cycle.
pub fn start_lit(subject: &Subject, cycle: usize) -> KeyLit
    requires subject { IsSubject subject.now }
    ensures { result ≡ defined.start_lit subject.now.design.now subject.now.claim.now.start cycle }
{
    let design = subject.design;
    match subject.claim.start {
        Start::Reg(r) => bit_lit(design, cycle, r),
        Start::Input(i) => base_lit(design, subject.tables.drivers(), cycle, design.inputs.at(i)),
    }
}

/// The literal of a register's bit in a cycle.
pub fn bit_lit(design: &Design, cycle: usize, reg: usize) -> KeyLit
    requires sound { IsSound design.now }
    requires reg { reg < length design.now.regs }
    ensures { result ≡ record { key = bit_key design.now cycle reg; positive = true } }
{
    let key = Key {
        cycle,
        layer: 0,
        rail: 0,
        point: design.nets + reg,
    };
    KeyLit {
        key,
        positive: true,
    }
}

/// The literals of a register's pins, and that of its own bit where one of its functions reads it as written.
pub fn push_own(reads: &mut Seq<KeyLit>, reg: &Reg, own: KeyLit) -> Result<(), AllocError>
    ensures { OnOk result (reads.new ≡ with_own reg.now own reads.old) }
{
    if reg.reads_own() {
        reads.push(own)?;
    }
    Ok(())
}

/// The literal of what a claim's end captures in a cycle.
pub fn capture_lit(subject: &Subject, cycle: usize) -> KeyLit
    requires subject { IsSubject subject.now }
    requires late { cycle < 2 ^ 32 }
    ensures { result ≡ defined.capture_lit subject.now.design.now subject.now.claim.now.end cycle }
{
    let design = subject.design;
    match subject.claim.end {
        End::Reg(r) => bit_lit(design, cycle + 1, r),
        End::Output(o) => base_lit(
            design,
            subject.tables.drivers(),
            cycle,
            design.outputs.at(o),
        ),
    }
}

/// The literal of what a claim's end captures in a cycle where the start is late, on a rail.
pub fn late_capture_lit(subject: &Subject, cycle: usize, rail: usize) -> KeyLit
    requires subject { IsSubject subject.now }
    ensures { result
        ≡ defined.late_capture_lit subject.now.design.now subject.now.claim.now subject.now.moved cycle rail subject.now.claim.now.end }
{
    let (design, end) = (subject.design, subject.claim.end);
    let layer = subject.claim.through.len() + 1;
    let point = match end {
        End::Reg(_) => design.nets + design.regs.len(),
        End::Output(o) => design.outputs.at(o),
    };
    let key = Key {
        cycle,
        layer,
        rail,
        point,
    };
    match end {
        End::Reg(_) => KeyLit {
            key,
            positive: true,
        },
        End::Output(o) => pin_lit(subject, PinRef::OutPort(o), key),
    }
}
