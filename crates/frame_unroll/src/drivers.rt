//! What drives each net, and the literals of nets in layer 0.
ghost use Rattle.std.specs.Prelude.{◌≡◌, ◌<◌, ℕ, length, IfOk};
ghost use Rattle.net_model.specs.Netlist.{AllBelow, IsSound};
ghost use Rattle.query_model.specs.Reads.{read_base, shown_in};
ghost use Rattle.frame_unroll.specs.Outs.{out_nets};
ghost use Rattle.frame_unroll.specs.Drivers.{driver_at, shown_or, AreDrivers};

use net_model::{Design, RegOut};
use query_model::{Key, KeyLit};
use sdcv_base::Seq;
use std::alloc::{AllocError, Global};

/// What a net shows: itself, or the bit of a register, inverted or not.
#[derive(Debug, Clone, Copy, PartialEq, Eq)]
pub enum Driver {
    Own,
    Bit(usize, bool),
}

/// Writes the bit of a register to the nets of its outputs, from the last output to the first.
fn put_outs(outs: &Seq<RegOut>, reg: usize, drivers: &mut Seq<Driver>)
    requires { AllBelow (length drivers.old) (out_nets outs.now) }
    ensures len { length drivers.new ≡ length drivers.old }
    ensures shown { (n : ℕ) → driver_at drivers.new n ≡ shown_or (driver_at drivers.old n) reg (shown_in outs.now n) }
{
    let count = outs.len();
    for i in 0..count {
        let out = outs.at(count - 1 - i);
        drivers.put(out.net, Driver::Bit(reg, out.inverted));
    }
}

/// The driver of each net. Registers are gone through from the last to the first, so that of several the first counts.
pub fn net_drivers(alloc: Global, design: &Design) -> Result<Seq<Driver>, AllocError>
    requires { IsSound design.now }
    ensures { IfOk result (AreDrivers design.now) }
{
    let mut drivers = Seq::filled(alloc, Driver::Own, design.nets)?;
    let count = design.regs.len();
    for i in 0..count {
        let reg = count - 1 - i;
        put_outs(&design.regs.item(reg).outs, reg, &mut drivers);
    }
    Ok(drivers)
}

/// The literal of a net in layer 0.
pub fn base_lit(design: &Design, drivers: &Seq<Driver>, cycle: usize, net: usize) -> KeyLit
    requires sound { IsSound design.now }
    requires drivers { AreDrivers design.now drivers.now }
    requires low { net < design.now.nets }
    ensures { result ≡ read_base design.now cycle net }
{
    let (point, positive) = match drivers.at(net) {
        Driver::Own => (net, true),
        Driver::Bit(reg, inverted) => (design.nets + reg, !inverted),
    };
    let key = Key {
        cycle,
        layer: 0,
        rail: 0,
        point,
    };
    KeyLit { key, positive }
}
