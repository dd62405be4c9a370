//! Whether a claim's places are those of a design.
ghost use Rattle.std.specs.Prelude.{◌↔◌, IsTrue, All};
ghost use Rattle.net_model.specs.Fits.{IsStartIn, IsEndIn, IsPinIn, IsKindFit, IsLagFit, IsSideFit, Fits};

use crate::claims::{Claim, End, PinRef, Start};
use crate::limits::{MOST_CYCLES, MOST_LAG, MOST_SETS};
use crate::netlist::Design;
use crate::pins::PinSet;
use sdcv_base::Kind;

fn is_kind_fit(kind: Kind) -> bool
    ensures { IsTrue result ↔ IsKindFit kind }
{
    match kind {
        Kind::False => true,
        Kind::Multi(cycles) => cycles >= 1 && cycles <= MOST_CYCLES,
    }
}

fn is_lag_fit(kind: Kind, lag: u8) -> bool
    ensures { IsTrue result ↔ IsLagFit kind lag }
{
    match kind {
        Kind::False => lag <= MOST_LAG,
        Kind::Multi(_) => lag == 0,
    }
}

fn is_side_fit(early: bool, kind: Kind, lag: u8) -> bool
    ensures { IsTrue result ↔ IsSideFit early kind lag }
{
    match kind {
        Kind::False => !early || lag == 0,
        Kind::Multi(_) => !early,
    }
}

fn is_start_in(design: &Design, start: Start) -> bool
    ensures { IsTrue result ↔ IsStartIn design.now start }
{
    match start {
        Start::Reg(reg) => reg < design.regs.len(),
        Start::Input(input) => input < design.inputs.len(),
    }
}

fn is_end_in(design: &Design, end: End) -> bool
    ensures { IsTrue result ↔ IsEndIn design.now end }
{
    match end {
        End::Reg(reg) => reg < design.regs.len(),
        End::Output(output) => output < design.outputs.len(),
    }
}

fn is_pin_in(design: &Design, pin: PinRef) -> bool
    ensures { IsTrue result ↔ IsPinIn design.now pin }
{
    match pin {
        PinRef::Net(net) => net < design.nets,
        PinRef::GateIn(gate, place) => {
            gate < design.gates.len() && place < design.gates.item(gate).ins.len()
        }
        PinRef::RegIn(reg, place) => {
            reg < design.regs.len() && place < design.regs.item(reg).ins.len()
        }
        PinRef::OutPort(output) => output < design.outputs.len(),
    }
}

fn are_pins_in(design: &Design, set: &PinSet) -> bool
    ensures { IsTrue result ↔ All (IsPinIn design.now) set.now }
{
    set.pins()
        .as_slice()
        .iter()
        .all(|pin| is_pin_in(design, *pin))
}

impl Claim {
    /// Whether all places of the claim are in range, its multiplier is from 1 to 16, its lag is at most 8 and that of a
    /// multicycle path 0, it is of the early side only as a false path without lag, and it has at most 4 through sets.
    pub fn fits(&self, design: &Design) -> bool
        ensures { IsTrue result ↔ Fits design.now self.now }
    {
        is_kind_fit(self.kind)
            && is_lag_fit(self.kind, self.lag)
            && is_side_fit(self.early, self.kind, self.lag)
            && is_start_in(design, self.start)
            && is_end_in(design, self.end)
            && self.through.len() <= MOST_SETS
            && self
                .through
                .as_slice()
                .iter()
                .all(|set| are_pins_in(design, set))
    }
}
