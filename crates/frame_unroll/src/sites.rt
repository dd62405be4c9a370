//! Sites: what the places of a function read where it defines a key, and that key.
ghost use Rattle.std.specs.Prelude.{◌≡◌, ◌<◌, ◌≤◌, ◌+◌, ◌^◌, Some, length, slice_get, IfOk};
ghost use Rattle.net_model.specs.Netlist.{IsSound};
ghost use Rattle.net_model.specs.declared.netlist.Gate.{Gate};
ghost use Rattle.net_model.specs.declared.netlist.Reg.{Reg};
ghost use Rattle.frame_unroll.specs.Drivers.{AreDrivers};
ghost use Rattle.frame_unroll.specs.Reading.{IsSubject};
ghost use Rattle.frame_unroll.specs.Sites as sites;

use crate::drivers::Driver;
use crate::gathered::{Owner, RailAt, bit_lit, pin_literals, pin_literals_at, push_own};
use crate::subjects::Subject;
use net_model::Design;
use query_model::{Key, KeyLit};
use sdcv_base::Seq;
use std::alloc::{AllocError, Global};

/// What the places of a function read on one rail, and the key that the function defines by it.
#[derive(Drop)]
pub struct Rail {
    pub reads: Seq<KeyLit>,
    pub out: Key,
}

/// Where a function defines a key: its rail, and in a layer where hazards count the other rail too. The keys tell the cycle and
/// the layer.
#[derive(Drop)]
pub struct Site {
    pub high: Rail,
    pub low: Option<Rail>,
}

/// The site of the net that a gate drives in a cycle.
pub fn gate_site(
    alloc: Global,
    design: &Design,
    drivers: &Seq<Driver>,
    cycle: usize,
    gate: usize,
) -> Result<Site, AllocError>
    requires sound { IsSound design.now }
    requires drivers { AreDrivers design.now drivers.now }
    requires gate { gate < length design.now.gates }
    ensures { IfOk result (λ site. (g : Gate) → slice_get design.now.gates gate ≡ Some g → site ≡ sites.gate_site design.now cycle g) }
{
    let driver = design.gates.item(gate);
    let reads = pin_literals(alloc, design, drivers, cycle, &driver.ins)?;
    let out = Key {
        cycle,
        layer: 0,
        rail: 0,
        point: driver.out,
    };
    Ok(Site {
        high: Rail { reads, out },
        low: None,
    })
}

/// The site of a register's bit in the cycle after this one.
pub fn bit_site(
    alloc: Global,
    design: &Design,
    drivers: &Seq<Driver>,
    cycle: usize,
    reg: usize,
) -> Result<Site, AllocError>
    requires sound { IsSound design.now }
    requires drivers { AreDrivers design.now drivers.now }
    requires cycle { cycle + 1 < 2 ^ 64 }
    requires reg { reg < length design.now.regs }
    ensures { IfOk result (λ site. (r : Reg) → slice_get design.now.regs reg ≡ Some r → site ≡ sites.bit_site design.now cycle reg r) }
{
    let register = design.regs.item(reg);
    let mut reads = pin_literals(alloc, design, drivers, cycle, &register.ins)?;
    push_own(&mut reads, register, bit_lit(design, cycle, reg))?;
    let out = bit_lit(design, cycle + 1, reg).key;
    Ok(Site {
        high: Rail { reads, out },
        low: None,
    })
}

/// A rail of the net that a gate drives in a layer.
fn gate_rail(
    alloc: Global,
    subject: &Subject,
    rail_at: RailAt,
    gate: usize,
) -> Result<Rail, AllocError>
    requires subject { IsSubject subject.now }
    requires layer { rail_at.layer ≤ length subject.now.claim.now.through + 1 }
    requires gate { gate < length subject.now.design.now.gates }
    ensures { IfOk result (λ rail. (g : Gate) → slice_get subject.now.design.now.gates gate ≡ Some g
        → rail ≡ sites.gate_rail subject.now.design.now subject.now.claim.now subject.now.moved rail_at.cycle rail_at.layer rail_at.rail gate g) }
{
    let driver = subject.design.gates.item(gate);
    let reads = pin_literals_at(alloc, subject, Owner::Gate(gate), &driver.ins, rail_at)?;
    let out = Key {
        cycle: rail_at.cycle,
        layer: rail_at.layer,
        rail: rail_at.rail,
        point: driver.out,
    };
    Ok(Rail { reads, out })
}

/// The site of the net that a gate drives in a layer after the cycle itself.
pub fn late_gate_site(
    alloc: Global,
    subject: &Subject,
    cycle: usize,
    layer: usize,
    gate: usize,
) -> Result<Site, AllocError>
    requires subject { IsSubject subject.now }
    requires layer { layer ≤ length subject.now.claim.now.through + 1 }
    requires gate { gate < length subject.now.design.now.gates }
    ensures { IfOk result (λ site. (g : Gate) → slice_get subject.now.design.now.gates gate ≡ Some g
        → site ≡ sites.late_gate_site subject.now.design.now subject.now.claim.now subject.now.moved cycle layer gate g) }
{
    let rail_at = RailAt {
        cycle,
        layer,
        rail: 0,
    };
    let high = gate_rail(alloc, subject, rail_at, gate)?;
    if !subject.claim.hazard {
        return Ok(Site { high, low: None });
    }
    let rail_at = RailAt {
        cycle,
        layer,
        rail: 1,
    };
    let low = gate_rail(alloc, subject, rail_at, gate)?;
    let low = Some(low);
    Ok(Site { high, low })
}

/// A rail of the late capture of a register, which reads its own bit by a literal of this sign.
fn reg_rail(
    alloc: Global,
    subject: &Subject,
    cycle: usize,
    rail: usize,
    own: bool,
    reg: usize,
) -> Result<Rail, AllocError>
    requires subject { IsSubject subject.now }
    requires reg { reg < length subject.now.design.now.regs }
    ensures { IfOk result (λ found. (r : Reg) → slice_get subject.now.design.now.regs reg ≡ Some r
        → found ≡ sites.reg_rail subject.now.design.now subject.now.claim.now subject.now.moved cycle rail own reg r) }
{
    let design = subject.design;
    let register = design.regs.item(reg);
    let rail_at = RailAt {
        cycle,
        layer: subject.claim.through.len() + 1,
        rail,
    };
    let mut reads = pin_literals_at(alloc, subject, Owner::Reg(reg), &register.ins, rail_at)?;
    let bit = KeyLit {
        key: bit_lit(design, cycle, reg).key,
        positive: own,
    };
    push_own(&mut reads, register, bit)?;
    let out = Key {
        cycle,
        layer: rail_at.layer,
        rail,
        point: design.nets + design.regs.len(),
    };
    Ok(Rail { reads, out })
}

/// The site of what a register that is the end captures in the last layer. On the second rail its own bit is read as its
/// complement.
pub fn late_reg_site(
    alloc: Global,
    subject: &Subject,
    cycle: usize,
    reg: usize,
) -> Result<Site, AllocError>
    requires subject { IsSubject subject.now }
    requires reg { reg < length subject.now.design.now.regs }
    ensures { IfOk result (λ site. (r : Reg) → slice_get subject.now.design.now.regs reg ≡ Some r
        → site ≡ sites.late_reg_site subject.now.design.now subject.now.claim.now subject.now.moved cycle reg r) }
{
    let high = reg_rail(alloc, subject, cycle, 0, true, reg)?;
    if !subject.claim.hazard {
        return Ok(Site { high, low: None });
    }
    let low = reg_rail(alloc, subject, cycle, 1, false, reg)?;
    let low = Some(low);
    Ok(Site { high, low })
}
