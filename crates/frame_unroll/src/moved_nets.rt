//! Which nets a late start moves, layer by layer.
ghost use Rattle.std.specs.Prelude.{◌≡◌, ◌<◌, ◌≤◌, ◌-◌, ℕ, true, false, length, map, All, Contains, IfOk, OnOk};
ghost use Rattle.net_model.specs.Netlist.{IsSound};
ghost use Rattle.net_model.specs.Fits.{Fits, IsPinIn};
ghost use Rattle.net_model.specs.Layers.{row_at, net_at, pin_reads};
ghost use Rattle.net_paths.specs.Readers.{AreReaders};
ghost use Rattle.query_model.specs.Reads.{AreMoved};
ghost use Rattle.frame_unroll.specs.Moves.{rows_of, AreThose, Lists, IsTaken, SetMoves};

use crate::spreads::spread;
use crate::starts::start_nets;
use indexmap::IndexSet;
use net_model::{Claim, Design, PinRef, PinSet, is_held};
use net_paths::Readers;
use sdcv_base::Seq;
use std::alloc::{AllocError, Global};
use std::marker::Model;

/// The nets that a late start moves in each layer. They alone are listed, so it takes the time and memory of the nets to
/// which the start leads, whatever the size of the design.
///
/// Contracts see a row for each layer, with a mark for each net of the design.
#[derive(Drop)]
pub struct MovedNets {
    nets: usize,
    layers: Vec<IndexSet<usize>>,
}

impl Model for MovedNets {
    ghost use Rattle.std.specs.Prelude.{List, Bool, map};
    ghost use Rattle.frame_unroll.specs.Moves.{rows_of};

    ghost Value = { List (List Bool) };

    ghost view = { λ m. rows_of m.nets (map (λ s. s.keys) m.layers.items) };
}

impl MovedNets {
    /// The nets that the start of a claim moves, by the pins that read each net.
    ///
    /// In the first layer a net is moved where it is the start's, or where a pin of its gate reads a moved net. In the
    /// layer of a through set the set's pins read the layer before, and a net whose driver pin is in the set is moved as
    /// in the layer before.
    pub fn of(
        alloc: Global,
        design: &Design,
        claim: &Claim,
        readers: &Readers,
    ) -> Result<MovedNets, AllocError>
        requires sound { IsSound design.now }
        requires fits { Fits design.now claim.now }
        requires readers { AreReaders design.now readers.now.rows.items }
        ensures { IfOk result (AreMoved design.now claim.now) }
    {
        let sets = &claim.through;
        let mut first = listed(alloc, &start_nets(alloc, design, claim)?)?;
        spread(design, readers, sets, 0, &mut first)?;
        let mut layers = Vec::new(alloc);
        layers.push(first)?;
        for l in 0..sets.len() {
            let mut next = taken(alloc, design, sets, l, &layers)?;
            spread(design, readers, sets, l + 1, &mut next)?;
            layers.push(next)?;
        }
        Ok(MovedNets {
            nets: design.nets,
            layers,
        })
    }

    /// Whether a net is moved in a layer.
    pub fn has(&self, layer: usize, net: usize) -> bool
        requires layer { layer < length self.now }
        requires net { net < length (row_at self.now layer) }
        ensures { result ≡ net_at false self.now layer net }
    {
        self.layers[layer].contains(&net)
    }
}

/// These nets, each once.
fn listed(alloc: Global, nets: &[usize]) -> Result<IndexSet<usize>, AllocError>
    ensures { IfOk result (λ found. AreThose (Contains nets.now) found.keys) }
{
    let mut found = IndexSet::new(alloc);
    for net in nets {
        found.insert(*net)?;
    }
    Ok(found)
}

/// The nets that the set of layer l + 1 moves there, where the layers up to l are listed.
fn taken(
    alloc: Global,
    design: &Design,
    sets: &Seq<PinSet>,
    l: usize,
    layers: &[IndexSet<usize>],
) -> Result<IndexSet<usize>, AllocError>
    requires sound { IsSound design.now }
    requires sets { l < length sets.now }
    requires layers { l < length layers.now }
    requires pins { All (All (IsPinIn design.now)) sets.now }
    ensures { IfOk result (λ found. AreThose (IsTaken design.now sets.now (rows_of design.now.nets (map (λ s. s.keys) layers.now)) l) found.keys) }
{
    let mut found = IndexSet::new(alloc);
    for pin in sets.item(l).pins().as_slice() {
        take(design, sets, l, layers, *pin, &mut found)?;
    }
    Ok(found)
}

/// Lists the net that a pin in the set of layer l + 1 moves there, if it moves one.
fn take(
    design: &Design,
    sets: &Seq<PinSet>,
    l: usize,
    layers: &[IndexSet<usize>],
    pin: PinRef,
    found: &mut IndexSet<usize>,
) -> Result<(), AllocError>
    requires sound { IsSound design.now }
    requires sets { l < length sets.now }
    requires layers { l < length layers.now }
    requires pin { IsPinIn design.now pin }
    ensures { OnOk result (Lists (SetMoves design.now sets.now (rows_of design.now.nets (map (λ s. s.keys) layers.now)) l pin) found.old.keys found.new.keys) }
{
    match pin {
        PinRef::Net(net) => {
            if layers[l].contains(&net) {
                found.insert(net)?;
            }
        }
        PinRef::GateIn(gate, place) => {
            let driver = design.gates.item(gate);
            let out = driver.out;
            let late = reads_moved(sets, l, layers, pin, driver.ins.at(place));
            if late && !is_held(sets, l + 1, PinRef::Net(out)) {
                found.insert(out)?;
            }
        }
        _ => {}
    }
    Ok(())
}

/// Whether a pin on a net reads a moved net in a layer: where it is in the layer's set, whether it does in the one before.
fn reads_moved(
    sets: &Seq<PinSet>,
    layer: usize,
    layers: &[IndexSet<usize>],
    pin: PinRef,
    net: usize,
) -> bool
    requires sets { layer ≤ length sets.now }
    requires layers { layer < length layers.now }
    ensures { (count : ℕ) → net < count → result ≡ pin_reads false sets.now (rows_of count (map (λ s. s.keys) layers.now)) layer pin net }
{
    if is_held(sets, layer, pin) {
        reads_moved(sets, layer - 1, layers, pin, net)
    } else {
        layers[layer].contains(&net)
    }
}
