//! The parts that hand the clock on, by the net that they read it from.
ghost use Rattle.std.specs.Prelude.{◌≡◌, ◌<◌, ℕ, [], length, IfOk, OnOk, Some, replicate};
ghost use Rattle.link_design.specs.Lawful.{IsLawfulCircuit};
ghost use Rattle.link_design.specs.Readers.{readers_at, hands_from, with_reader, with_reader_at, AreReaders};

use link_defs::{Circuit, Part};
use sdcv_base::Seq;
use std::alloc::{AllocError, Global};

/// For each net the places of the parts that hand the clock on from it.
#[derive(Drop)]
pub(crate) struct ClockReaders {
    pub(crate) rows: Vec<Seq<usize>>,
}

impl ClockReaders {
    /// The readers of each net of a circuit, found in one pass over its parts.
    pub(crate) fn of(alloc: Global, circuit: &Circuit) -> Result<ClockReaders, AllocError>
        requires { IsLawfulCircuit circuit.now }
        ensures { IfOk result (λ readers. AreReaders circuit.now readers.rows.items) }
    {
        let mut readers = ClockReaders::none(alloc, circuit.nets)?;
        for place in 0..circuit.parts.len() {
            readers.add_part(circuit.parts.item(place), place)?;
        }
        Ok(readers)
    }

    /// The places of the parts that hand the clock on from a net.
    pub(crate) fn of_net(&self, net: usize) -> &[usize]
        requires { net < length self.now.rows.items }
        ensures { result.now ≡ readers_at self.now.rows.items net }
    {
        self.rows[net].as_slice()
    }

    fn none(alloc: Global, nets: usize) -> Result<ClockReaders, AllocError>
        ensures { IfOk result (λ readers. readers.rows.items ≡ replicate nets []) }
    {
        let mut rows = Vec::new(alloc);
        for _ in 0..nets {
            rows.push(Seq::new(alloc))?;
        }
        Ok(ClockReaders { rows })
    }

    // The part at a place, if it hands the clock on.
    fn add_part(&mut self, part: &Part, place: usize) -> Result<(), AllocError>
        requires { (net : ℕ) → hands_from part.now ≡ Some net → net < length self.old.rows.items }
        ensures { OnOk result (self.new.rows.items ≡ with_reader place self.old.rows.items part.now) }
    {
        match hands_from(part) {
            Some(net) => self.add(net, place),
            None => Ok(()),
        }
    }

    fn add(&mut self, net: usize, place: usize) -> Result<(), AllocError>
        requires { net < length self.old.rows.items }
        ensures { OnOk result (self.new.rows.items ≡ with_reader_at place self.old.rows.items net) }
    {
        let row = &mut self.rows[net];
        row.push(place)?;
        Ok(())
    }
}

/// The net from which a part hands the clock on, if it does.
fn hands_from(part: &Part) -> Option<usize>
    ensures { result ≡ hands_from part.now }
{
    match part {
        Part::Comb { buffer, ins, .. } => {
            if *buffer {
                ins.as_slice().first().copied()
            } else {
                None
            }
        }
        Part::Flop { .. } => None,
        Part::Gate { clock, .. } => Some(*clock),
    }
}
