//! Whether a cycle is bad for a claim.
ghost use Rattle.std.specs.Prelude.{◌≡◌, ◌↔◌, IsTrue, IfOk};
ghost use Rattle.net_model.specs.Netlist.{IsSound};
ghost use Rattle.net_model.specs.Fits.{Fits};
ghost use Rattle.net_model.specs.Cycles.{IsSettled};
ghost use Rattle.net_model.specs.Judge as judge;
ghost use Rattle.net_model.specs.declared.terns.Tern.TheVariants.{Unknown};
ghost use Rattle.witness_replay.specs.Rooms.{AreRoomsFor};

use net_model::{Claim, Cycle, Design, Kind, Tern};
use net_sim::{Layers, capture, layer_capture};
use std::alloc::{AllocError, Global};
use ternary_sim::{Layers3, capture3};

/// Room for the layers of a design, of bits and of three values.
#[derive(Drop)]
pub struct Rooms {
    pub bits: Layers,
    pub terns: Layers3,
}

impl Rooms {
    pub fn new(alloc: Global, design: &Design) -> Result<Rooms, AllocError>
        ensures { IfOk result (AreRoomsFor design.now) }
    {
        let bits = Layers::new(alloc, design)?;
        let terns = Layers3::new(alloc, design)?;
        Ok(Rooms { bits, terns })
    }
}

/// Whether the late capture differs from the capture.
fn differs_late(
    design: &Design,
    claim: &Claim,
    cycle: &Cycle,
    stale: bool,
    rooms: &mut Rooms,
) -> bool
    requires sound { IsSound design.now }
    requires fits { Fits design.now claim.now }
    requires settled { IsSettled design.now cycle.now }
    requires rooms { AreRoomsFor design.now rooms.old }
    ensures means { IsTrue result ↔ judge.DiffersLate design.now claim.now cycle.now stale }
    ensures rooms { AreRoomsFor design.now rooms.new }
{
    let late = layer_capture(design, claim, cycle, stale, &mut rooms.bits);
    late != capture(design, cycle, &claim.end)
}

fn is_unknown(value: Tern) -> bool
    ensures { IsTrue result ↔ (value ≡ Unknown) }
{
    value == Tern::Unknown
}

/// Whether the end may glitch where the start is unknown.
fn may_glitch(design: &Design, claim: &Claim, cycle: &Cycle, rooms: &mut Rooms) -> bool
    requires sound { IsSound design.now }
    requires fits { Fits design.now claim.now }
    requires settled { IsSettled design.now cycle.now }
    requires rooms { AreRoomsFor design.now rooms.old }
    ensures means { IsTrue result ↔ judge.MayGlitch design.now claim.now cycle.now }
    ensures rooms { AreRoomsFor design.now rooms.new }
{
    let captured = capture3(design, claim, cycle, &mut rooms.terns);
    is_unknown(captured)
}

/// Whether the capture differs from the capture in the cycle before.
fn changes(design: &Design, claim: &Claim, before: &Cycle, cycle: &Cycle) -> bool
    requires sound { IsSound design.now }
    requires fits { Fits design.now claim.now }
    requires before { IsSettled design.now before.now }
    requires settled { IsSettled design.now cycle.now }
    ensures { IsTrue result ↔ judge.Changes design.now claim.now before.now cycle.now }
{
    capture(design, cycle, &claim.end) != capture(design, before, &claim.end)
}

/// Whether a cycle is bad where hazards don't count.
fn is_bad_plain(
    design: &Design,
    claim: &Claim,
    stale: bool,
    before: &Cycle,
    cycle: &Cycle,
    rooms: &mut Rooms,
) -> bool
    requires sound { IsSound design.now }
    requires fits { Fits design.now claim.now }
    requires before { IsSettled design.now before.now }
    requires settled { IsSettled design.now cycle.now }
    requires rooms { AreRoomsFor design.now rooms.old }
    ensures means { IsTrue result ↔ judge.IsBadPlain claim.now.kind claim.now.through design.now claim.now stale before.now cycle.now }
    ensures rooms { AreRoomsFor design.now rooms.new }
{
    match claim.kind {
        Kind::False => differs_late(design, claim, cycle, stale, rooms),
        Kind::Multi(_) if claim.through.is_empty() => changes(design, claim, before, cycle),
        Kind::Multi(_) => {
            let differs = differs_late(design, claim, cycle, stale, rooms);
            differs && changes(design, claim, before, cycle)
        }
    }
}

/// Whether a cycle is bad where hazards count.
fn is_bad_hazard(
    design: &Design,
    claim: &Claim,
    before: &Cycle,
    cycle: &Cycle,
    rooms: &mut Rooms,
) -> bool
    requires sound { IsSound design.now }
    requires fits { Fits design.now claim.now }
    requires before { IsSettled design.now before.now }
    requires settled { IsSettled design.now cycle.now }
    requires rooms { AreRoomsFor design.now rooms.old }
    ensures means { IsTrue result ↔ judge.IsBadHazard claim.now.kind claim.now.through design.now claim.now before.now cycle.now }
    ensures rooms { AreRoomsFor design.now rooms.new }
{
    let glitches = may_glitch(design, claim, cycle, rooms);
    match claim.kind {
        Kind::Multi(_) if claim.through.is_empty() => {
            glitches || changes(design, claim, before, cycle)
        }
        _ => glitches,
    }
}

/// Whether a cycle is bad on the late side, given the stale bit.
fn is_late_bad(
    design: &Design,
    claim: &Claim,
    stale: bool,
    before: &Cycle,
    cycle: &Cycle,
    rooms: &mut Rooms,
) -> bool
    requires sound { IsSound design.now }
    requires fits { Fits design.now claim.now }
    requires before { IsSettled design.now before.now }
    requires settled { IsSettled design.now cycle.now }
    requires rooms { AreRoomsFor design.now rooms.old }
    ensures means { IsTrue result ↔ judge.IsBadFor claim.now.hazard design.now claim.now stale before.now cycle.now }
    ensures rooms { AreRoomsFor design.now rooms.new }
{
    if claim.hazard {
        is_bad_hazard(design, claim, before, cycle, rooms)
    } else {
        is_bad_plain(design, claim, stale, before, cycle, rooms)
    }
}

/// Whether a toggle is bad on the early side: the cycle before it captures another bit where the start shows its new one.
fn is_early_bad(
    design: &Design,
    claim: &Claim,
    before: &Cycle,
    cycle: &Cycle,
    rooms: &mut Rooms,
) -> bool
    requires sound { IsSound design.now }
    requires fits { Fits design.now claim.now }
    requires before { IsSettled design.now before.now }
    requires settled { IsSettled design.now cycle.now }
    requires rooms { AreRoomsFor design.now rooms.old }
    ensures means { IsTrue result ↔ judge.IsEarlyBad claim.now.hazard design.now claim.now before.now cycle.now }
    ensures rooms { AreRoomsFor design.now rooms.new }
{
    if claim.hazard {
        return may_glitch(design, claim, before, rooms);
    }
    let coming = cycle.start_bit(design, &claim.start);
    differs_late(design, claim, before, coming, rooms)
}

/// Whether a cycle, which comes after another, is bad for the claim, given the stale bit. A claim of the early side judges the
/// cycle before.
pub fn is_bad(
    design: &Design,
    claim: &Claim,
    stale: bool,
    before: &Cycle,
    cycle: &Cycle,
    rooms: &mut Rooms,
) -> bool
    requires sound { IsSound design.now }
    requires fits { Fits design.now claim.now }
    requires before { IsSettled design.now before.now }
    requires settled { IsSettled design.now cycle.now }
    requires rooms { AreRoomsFor design.now rooms.old }
    ensures means { IsTrue result ↔ judge.IsBadOn claim.now.early claim.now.hazard design.now claim.now stale before.now cycle.now }
    ensures rooms { AreRoomsFor design.now rooms.new }
{
    if claim.early {
        is_early_bad(design, claim, before, cycle, rooms)
    } else {
        is_late_bad(design, claim, stale, before, cycle, rooms)
    }
}
