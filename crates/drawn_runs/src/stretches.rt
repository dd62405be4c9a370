//! Sixty-four stretches at once.
ghost use Rattle.std.specs.Prelude.{◌≡◌, ◌<◌, ◌+◌, ℕ, filter, IfOk, OnOk};
ghost use Rattle.std.specs.List.{list_all};
ghost use Rattle.net_model.specs.Netlist.{IsSound};
ghost use Rattle.net_model.specs.Queries.{clause_holds};
ghost use Rattle.net_model.specs.LaneBits.{lane};
ghost use Rattle.drawn_runs.specs.Sifts.{bits_cycle};
ghost use Rattle.drawn_runs.specs.Stretches.{holds_where, IsReady, IsStretchCycle, AreStretchesTo, IsThinnedOnce, cycle_in};

use crate::inputs::{fill_inputs, held_marks};
use crate::lane_steps::{both, either, step64};
use crate::pulls::pulled_bits;
use crate::sifts::clause64;
use net_model::{Design, InvClause, Lanes, Value};
use net_sim::settle64;
use rand_core::SeedableRng;
use rand_pcg::Lcg64Xsh32;
use sdcv_base::Seq;
use std::alloc::{AllocError, Global};

/// The register bits, the input bits and the net values of all stretches in a cycle; the lanes whose cycles before it met the
/// clauses; which inputs are held; and the generator of the bits to come.
#[derive(Drop)]
pub(crate) struct Stretches {
    pub bits: Seq<Lanes>,
    pub ins: Seq<Lanes>,
    pub nets: Seq<Lanes>,
    pub met: Lanes,
    pub marks: Seq<bool>,
    pub rng: Lcg64Xsh32,
}

/// In each lane whether all clauses hold.
fn all64(clauses: &Seq<InvClause>, bits: &Seq<Lanes>) -> Lanes
    ensures { (i : ℕ) → i < 64 → lane result i ≡ list_all (clause_holds (bits_cycle i bits.now)) clauses.now }
{
    let mut word = Lanes::of_bit(true);
    for clause in clauses.as_slice() {
        word = both(word, clause64(clause, bits));
    }
    word
}

/// Whether a clause holds in each of these lanes.
fn holds_where(lanes: Lanes, clause: &InvClause, bits: &Seq<Lanes>) -> bool
    ensures { result ≡ holds_where lanes bits.now clause.now }
{
    let word = either(clause64(clause, bits), lanes.complement());
    word.0 == u64::MAX
}

/// The clauses that hold in each of these lanes, in their order.
fn sift_where(clauses: Seq<InvClause>, lanes: Lanes, bits: &Seq<Lanes>) -> Seq<InvClause>
    ensures { result ≡ filter (holds_where lanes bits.now) clauses }
{
    let mut left = clauses.into_vec();
    left.retain(|clause| holds_where(lanes, clause, bits));
    Seq::from_vec(left)
}

impl Stretches {
    /// No stretch yet, and the bits to come.
    pub(crate) fn of(alloc: Global, design: &Design) -> Result<Stretches, AllocError>
        ensures { IfOk result (IsReady design.now) }
    {
        let blank = Lanes::of_bit(false);
        let bits = Seq::filled(alloc, blank, design.regs.len())?;
        let ins = Seq::filled(alloc, blank, design.inputs.len())?;
        let nets = Seq::filled(alloc, blank, design.nets)?;
        let marks = held_marks(alloc, design)?;
        Ok(Stretches {
            bits,
            ins,
            nets,
            met: blank,
            marks,
            rng: Lcg64Xsh32::seed_from_u64(1),
        })
    }

    /// Begins stretches by drawn register bits, in which the clauses hold where they are found: the registers of those that fail
    /// have their bits of `base`.
    fn begin(
        &mut self,
        alloc: Global,
        design: &Design,
        clauses: &Seq<InvClause>,
        base: &Seq<Lanes>,
    ) -> Result<(), AllocError>
        requires ready { IsReady design.now self.old }
        ensures { OnOk result (AreStretchesTo design.now clauses.now 0 self.new) }
    {
        self.bits = pulled_bits(alloc, design.regs.len(), &mut self.rng, clauses, base)?;
        self.met = Lanes::of_bit(true);
        Ok(())
    }

    /// Draws the input bits of the cycle, and settles the nets.
    fn settle(&mut self, design: &Design)
        requires sound { IsSound design.now }
        requires ready { IsReady design.now self.old }
        ensures ready { IsReady design.now self.new }
        ensures bits { self.new.bits ≡ self.old.bits }
        ensures met { self.new.met ≡ self.old.met }
        ensures cycles { (i : ℕ) → i < 64 → IsStretchCycle design.now (cycle_in i self.new) }
    {
        fill_inputs(design, &self.marks, false, &mut self.rng, &mut self.ins);
        settle64(design, &self.bits, &self.ins, &mut self.nets);
    }

    /// Makes the register bits those of the next cycle, and takes the lanes out in which a clause fails before it.
    fn step(
        &mut self,
        alloc: Global,
        design: &Design,
        clauses: &Seq<InvClause>,
    ) -> Result<(), AllocError>
        requires sound { IsSound design.now }
        requires ready { IsReady design.now self.old }
        ensures { OnOk result ((t : ℕ) → AreStretchesTo design.now clauses.now t self.old → AreStretchesTo design.now clauses.now (t + 1) self.new) }
    {
        self.met = both(self.met, all64(clauses, &self.bits));
        self.settle(design);
        self.bits = step64(alloc, design, &self.bits, &self.nets)?;
        Ok(())
    }

    /// The clauses that hold in this cycle of each stretch whose cycles before met them all, in their order.
    fn sift(&mut self, design: &Design, clauses: Seq<InvClause>) -> Seq<InvClause>
        requires sound { IsSound design.now }
        requires ready { IsReady design.now self.old }
        ensures sifted { (t : ℕ) → AreStretchesTo design.now clauses t self.old → IsThinnedOnce design.now t clauses result }
        ensures ready { IsReady design.now self.new }
    {
        self.settle(design);
        sift_where(clauses, self.met, &self.bits)
    }

    /// Tries the clauses in stretches of so many cycles and one: each clause that fails in the last one, where the cycles before meet
    /// all clauses, is left out.
    pub(crate) fn tried(
        &mut self,
        alloc: Global,
        design: &Design,
        base: &Seq<Lanes>,
        depth: usize,
        clauses: Seq<InvClause>,
    ) -> Result<Seq<InvClause>, AllocError>
        requires sound { IsSound design.now }
        requires ready { IsReady design.now self.old }
        ensures sifted { IfOk result (IsThinnedOnce design.now depth clauses) }
        ensures ready { OnOk result (IsReady design.now self.new) }
    {
        self.begin(alloc, design, &clauses, base)?;
        'cycles: for _ in 0..depth {
            self.step(alloc, design, &clauses)?;
        }
        Ok(self.sift(design, clauses))
    }
}
