//! One clock cycle, and the stimulus of a run.
ghost use Rattle.std.specs.Prelude.{◌≡◌, IfOk};
ghost use Rattle.net_model.specs.Cycles.{HasShape};
ghost use Rattle.net_model.specs.Fits.{IsStartIn};
ghost use Rattle.net_model.specs.Judge as judge;

use crate::claims::Start;
use crate::netlist::Design;
use sdcv_base::Seq;
use std::alloc::{AllocError, Global};

/// A bit for each register, for each input and for each net, in the order of the design's lists.
pub struct Cycle {
    pub bits: Seq<bool>,
    pub ins: Seq<bool>,
    pub nets: Seq<bool>,
}

// Let go by a call of its own: whoever owns one proves nothing of how its parts are kept.
impl Drop for Cycle {
    fn drop(self) {
        let Cycle {
            bits: _bits,
            ins: _ins,
            nets: _nets,
        } = self;
    }
}

impl Cycle {
    /// A cycle of a design, in which each bit is 0. Mostly it is not settled.
    pub fn blank(alloc: Global, design: &Design) -> Result<Cycle, AllocError>
        ensures { IfOk result (HasShape design.now) }
    {
        Ok(Cycle {
            bits: Seq::filled(alloc, false, design.regs.len())?,
            ins: Seq::filled(alloc, false, design.inputs.len())?,
            nets: Seq::filled(alloc, false, design.nets)?,
        })
    }

    /// The bit of a start of the design, in a cycle of the design.
    pub fn start_bit(&self, design: &Design, start: &Start) -> bool
        requires in_range { IsStartIn design.now start.now }
        requires shape { HasShape design.now self.now }
        ensures { result ≡ judge.start_bit start.now self.now }
    {
        match start {
            Start::Reg(reg) => self.bits.at(*reg),
            Start::Input(input) => self.ins.at(*input),
        }
    }
}

/// The register bits of a run's first cycle, and the input bits of each of its cycles.
pub struct Stimulus {
    pub state: Seq<bool>,
    pub inputs: Seq<Seq<bool>>,
}

// Let go by a call of its own: whoever owns one proves nothing of how its parts are kept.
impl Drop for Stimulus {
    fn drop(self) {
        let Stimulus {
            state: _state,
            inputs: _inputs,
        } = self;
    }
}
