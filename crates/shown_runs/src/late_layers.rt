//! The layers of a cycle in which the start comes late, and the nets that are late in them.
ghost use Rattle.std.specs.Prelude.{◌≡◌, ◌<◌, ◌≤◌, IfOk, IsTrue, true, false, length};
ghost use Rattle.net_model.specs.Netlist.{IsSound};
ghost use Rattle.net_model.specs.Fits.{Fits};
ghost use Rattle.net_model.specs.Cycles.{IsSettled};
ghost use Rattle.shown_runs.specs.LateLayers.{AreRowsFor, AreLayersOf, HasLayer, IsLateIn};

use net_model::{Claim, Cycle, Design, Tern, Value, make_layers};
use sdcv_base::Seq;
use std::alloc::{AllocError, Global};

/// A row of net values for each layer: bits where hazards don't count, and else values that may be unknown.
#[derive(Drop)]
pub(crate) enum LateLayers {
    Bits(Seq<Seq<bool>>),
    Terns(Seq<Seq<Tern>>),
}

/// Room for the layers of a claim: for the first, and for one of each through set.
fn blank_rows<V: Value>(
    alloc: Global,
    design: &Design,
    claim: &Claim,
) -> Result<Seq<Seq<V>>, AllocError>
    requires { Fits design.now claim.now }
    ensures { IfOk result (AreRowsFor design.now claim.now) }
{
    let mut rows = Seq::new(alloc);
    for _ in 0..claim.through.len() + 1 {
        rows.push(Seq::filled(alloc, V::of_bit(false), design.nets)?)?;
    }
    Ok(rows)
}

/// The layers in which the start shows the stale bit first.
fn stale_layers(
    alloc: Global,
    design: &Design,
    claim: &Claim,
    cycle: &Cycle,
    stale: bool,
) -> Result<LateLayers, AllocError>
    requires sound { IsSound design.now }
    requires fits { Fits design.now claim.now }
    requires settled { IsSettled design.now cycle.now }
    requires plain { claim.now.hazard ≡ false }
    ensures { IfOk result (AreLayersOf design.now claim.now cycle.now stale) }
{
    let mut rows = blank_rows::<bool>(alloc, design, claim)?;
    make_layers(design, claim, stale, !stale, &cycle.nets, &mut rows);
    Ok(LateLayers::Bits(rows))
}

/// The layers in which the start is unknown first.
fn unknown_layers(
    alloc: Global,
    design: &Design,
    claim: &Claim,
    cycle: &Cycle,
    stale: bool,
) -> Result<LateLayers, AllocError>
    requires sound { IsSound design.now }
    requires fits { Fits design.now claim.now }
    requires settled { IsSettled design.now cycle.now }
    requires hazard { claim.now.hazard ≡ true }
    ensures { IfOk result (AreLayersOf design.now claim.now cycle.now stale) }
{
    let mut rows = blank_rows::<Tern>(alloc, design, claim)?;
    let unknown = Tern::Unknown;
    make_layers(design, claim, unknown, unknown, &cycle.nets, &mut rows);
    Ok(LateLayers::Terns(rows))
}

impl LateLayers {
    /// The layers of a settled cycle, given the start's bit before it changed.
    pub fn of(
        alloc: Global,
        design: &Design,
        claim: &Claim,
        cycle: &Cycle,
        stale: bool,
    ) -> Result<LateLayers, AllocError>
        requires sound { IsSound design.now }
        requires fits { Fits design.now claim.now }
        requires settled { IsSettled design.now cycle.now }
        ensures { IfOk result (AreLayersOf design.now claim.now cycle.now stale) }
    {
        if claim.hazard {
            unknown_layers(alloc, design, claim, cycle, stale)
        } else {
            stale_layers(alloc, design, claim, cycle, stale)
        }
    }

    /// Whether a net is late in a layer: it differs there from what it is in the cycle, or is unknown.
    pub fn is_late(&self, cycle: &Cycle, layer: usize, net: usize) -> bool
        requires layer { HasLayer self.now layer net }
        requires net { net < length cycle.now.nets }
        ensures { IsTrue result → IsLateIn self.now cycle.now layer net }
    {
        match self {
            LateLayers::Bits(rows) => rows.item(layer).at(net) != cycle.nets.at(net),
            LateLayers::Terns(rows) => rows.item(layer).at(net) == Tern::Unknown,
        }
    }
}
