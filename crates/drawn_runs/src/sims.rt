//! Sixty-four runs at one cycle.
ghost use Rattle.std.specs.Prelude.{◌≡◌, ◌<◌, ◌+◌, ℕ, IfOk, OnOk, length};
ghost use Rattle.net_model.specs.Netlist.{IsSound};
ghost use Rattle.net_model.specs.LaneBits.{lane_row};
ghost use Rattle.drawn_runs.specs.Draws.{after};
ghost use Rattle.drawn_runs.specs.Drawn.{AreFirst};
ghost use Rattle.drawn_runs.specs.Inputs.{AreHeldMarks};
ghost use Rattle.drawn_runs.specs.Sims.{IsAt, IsSettledAt, AreFirst64};

use crate::draws::{draw, first_draw};
use crate::inputs::fill_inputs;
use crate::lane_steps::step64;
use net_model::{Design, Lanes, Value};
use net_sim::settle64;
use rand_pcg::Lcg64Xsh32;
use sdcv_base::Seq;
use std::alloc::{AllocError, Global};

/// The register bits, the input bits and the net values of all runs in a cycle, and the generator of the bits to come.
#[derive(Drop)]
pub(crate) struct Sim {
    pub bits: Seq<Lanes>,
    pub ins: Seq<Lanes>,
    pub nets: Seq<Lanes>,
    pub rng: Lcg64Xsh32,
}

impl Sim {
    /// The runs before their first cycle: its register bits are drawn.
    pub(crate) fn begin(alloc: Global, design: &Design) -> Result<Sim, AllocError>
        ensures { IfOk result (IsAt design.now 0) }
    {
        let mut rng = first_draw();
        let bits = first_bits(alloc, design, &mut rng)?;
        let blank = Lanes::of_bit(false);
        let ins = Seq::filled(alloc, blank, design.inputs.len())?;
        let nets = Seq::filled(alloc, blank, design.nets)?;
        Ok(Sim {
            bits,
            ins,
            nets,
            rng,
        })
    }

    /// Draws the input bits of cycle `t`, and settles the nets.
    pub(crate) fn settle(&mut self, design: &Design, marks: &Seq<bool>, t: usize)
        requires sound { IsSound design.now }
        requires marks { AreHeldMarks design.now marks.now }
        requires at { IsAt design.now t self.old }
        ensures { IsSettledAt design.now t self.new }
    {
        fill_inputs(
            design,
            marks,
            t < design.reset_len,
            &mut self.rng,
            &mut self.ins,
        );
        settle64(design, &self.bits, &self.ins, &mut self.nets);
    }

    /// Makes the register bits those of the next cycle.
    pub(crate) fn step(&mut self, alloc: Global, design: &Design) -> Result<(), AllocError>
        requires sound { IsSound design.now }
        requires bits { length self.old.bits ≡ length design.now.regs }
        requires nets { length self.old.nets ≡ design.now.nets }
        ensures { OnOk result ((t : ℕ) → IsSettledAt design.now t self.old → IsAt design.now (t + 1) self.new) }
    {
        self.bits = step64(alloc, design, &self.bits, &self.nets)?;
        Ok(())
    }
}

/// A drawn word for each register.
fn first_bits(
    alloc: Global,
    design: &Design,
    rng: &mut Lcg64Xsh32,
) -> Result<Seq<Lanes>, AllocError>
    requires first { rng.old ≡ after 0 }
    ensures bits { IfOk result (AreFirst64 design.now) }
    ensures next { OnOk result (rng.new ≡ after (length design.now.regs)) }
{
    let mut bits = Seq::new(alloc);
    'draws: for _ in 0..design.regs.len() {
        bits.push(draw(rng))?;
    }
    Ok(bits)
}
