//! Which assumption a load pin stands under.
ghost use Rattle.std.specs.Prelude.{◌≡◌, ◌+◌, ◌≤◌, ◌++◌, ℕ, IfOk, OnOk, OnErr, flat_map, length};
ghost use Rattle.case_inputs.specs.Ties.{pins_of, pin_sets, all_pins, first_of, read_net, AreTies, AreTiesOf};

use crate::assumptions::Assumed;
use net_model::{PinRef, PinSet};
use sdcv_base::Seq;
use std::alloc::{AllocError, Global};

/// The number of nets of a design, the pins of each assumption in order, and all of them in one set.
#[derive(Drop)]
pub struct Ties {
    pub nets: usize,
    pub sets: Seq<PinSet>,
    pub named: PinSet,
}

/// The pins of each assumption, as sets.
fn pin_sets(alloc: Global, assumed: &Seq<Assumed>) -> Result<Seq<PinSet>, AllocError>
    ensures { IfOk result (λ sets. sets ≡ pin_sets assumed.now) }
{
    let mut sets = Seq::new(alloc);
    for j in 0..assumed.len() {
        sets.push(PinSet::of(alloc, assumed.item(j).pins.as_slice())?)?;
    }
    Ok(sets)
}

/// Adds pins to a list.
fn push_pins(list: &mut Seq<PinRef>, pins: &Seq<PinRef>) -> Result<(), AllocError>
    ensures { OnOk result (list.new ≡ list.old ++ pins.now) }
{
    for j in 0..pins.len() {
        list.push(pins.at(j))?;
    }
    Ok(())
}

/// The pins of all assumptions, as one set.
fn named_pins(alloc: Global, assumed: &Seq<Assumed>) -> Result<PinSet, AllocError>
    ensures { IfOk result (λ set. set ≡ all_pins assumed.now) }
{
    let mut list = Seq::new(alloc);
    for j in 0..assumed.len() {
        push_pins(&mut list, &assumed.item(j).pins)?;
    }
    PinSet::of(alloc, list.as_slice())
}

/// The first of the sets that has the pin or its net.
fn first_of(sets: &Seq<PinSet>, pin: PinRef, net: usize) -> Option<usize>
    ensures { result ≡ first_of sets.now pin net }
{
    for j in 0..sets.len() {
        let set = sets.item(j);
        if set.has(pin) || set.has(PinRef::Net(net)) {
            return Some(j);
        }
    }
    None
}

impl Ties {
    /// What ties load pins of a design with so many nets to assumptions.
    pub fn of(alloc: Global, nets: usize, assumed: &Seq<Assumed>) -> Result<Ties, AllocError>
        requires { nets + length assumed.now ≤ 200000 }
        ensures { IfOk result (AreTiesOf nets assumed.now) }
    {
        let sets = pin_sets(alloc, assumed)?;
        let named = named_pins(alloc, assumed)?;
        Ok(Ties { nets, sets, named })
    }

    /// The net that a load pin of this net reads under the assumptions.
    pub fn read_net(&self, pin: PinRef, net: usize) -> usize
        requires { AreTies self.now }
        ensures { result ≡ read_net self.now.nets self.now.sets pin net }
    {
        // Most pins are in no set, and one look at all of them tells it.
        if !self.named.has(pin) && !self.named.has(PinRef::Net(net)) {
            return net;
        }
        match first_of(&self.sets, pin, net) {
            None => net,
            Some(j) => self.nets + j,
        }
    }
}
