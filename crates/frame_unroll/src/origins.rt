//! What defines a key.
ghost use Rattle.std.specs.Prelude.{◌≡◌, ◌<◌, ◌≤◌, length};
ghost use Rattle.net_model.specs.Netlist.{IsSound};
ghost use Rattle.query_model.specs.Defined.{has_own};
ghost use Rattle.frame_unroll.specs.Reading.{IsSubject};
ghost use Rattle.frame_unroll.specs.Found.{AreNetGates};
ghost use Rattle.frame_unroll.specs.Origins as origins;

use crate::subjects::Subject;
use net_model::{Claim, Design, End, PinRef, is_held};
use query_model::Key;
use sdcv_base::Seq;

/// What defines a key from other keys, if anything does.
///
/// A gate defines the key of its net, in the cycle or in a layer of it. A register defines its bit by its capture in the
/// cycle before, and the key of a late capture by that capture. The others are further points of a cycle: that the start
/// toggles, that the capture changes, that the late capture differs, and that the start's bit is another one than so many
/// cycles before the one before.
#[derive(Debug, Clone, Copy, PartialEq, Eq)]
pub enum Origin {
    Free,
    Gate(usize),
    Reg(usize),
    Toggle,
    Change,
    Differ,
    Stale(usize),
}

fn of_gate(gate: Option<usize>) -> Origin
    ensures { result ≡ origins.of_gate gate }
{
    match gate {
        None => Origin::Free,
        Some(k) => Origin::Gate(k),
    }
}

/// What defines a register's bit. In the first cycle nothing does.
fn bit_origin(design: &Design, cycles: usize, key: Key) -> Origin
    requires sound { IsSound design.now }
    requires bit { design.now.nets ≤ key.point }
    ensures { result ≡ origins.base_origin design.now cycles key }
{
    let reg = key.point - design.nets;
    if 0 < key.cycle && key.cycle <= cycles && reg < design.regs.len() {
        Origin::Reg(reg)
    } else {
        Origin::Free
    }
}

/// What defines a net or a register's bit in a cycle.
fn base_origin(design: &Design, gates: &Seq<Option<usize>>, cycles: usize, key: Key) -> Origin
    requires sound { IsSound design.now }
    requires gates { AreNetGates design.now gates.now }
    ensures { result ≡ origins.base_origin design.now cycles key }
{
    if key.point >= design.nets {
        return bit_origin(design, cycles, key);
    }
    if key.cycle < cycles {
        of_gate(gates.at(key.point))
    } else {
        Origin::Free
    }
}

/// What defines a key where it is asked about a clause over register bits.
pub fn clause_origin(design: &Design, gates: &Seq<Option<usize>>, cycles: usize, key: Key) -> Origin
    requires sound { IsSound design.now }
    requires gates { AreNetGates design.now gates.now }
    ensures { result ≡ origins.clause_origin design.now cycles key }
{
    if key.layer == 0 && key.rail == 0 {
        base_origin(design, gates, cycles, key)
    } else {
        Origin::Free
    }
}

/// What defines a further point of a cycle.
fn extra_origin(claim: &Claim, place: usize) -> Origin
    ensures { result ≡ origins.extra_origin claim.now place }
{
    match place {
        0 => Origin::Toggle,
        1 => Origin::Change,
        2 => Origin::Differ,
        _ => {
            if place - 2 < claim.judged_count() {
                Origin::Stale(place - 2)
            } else {
                Origin::Free
            }
        }
    }
}

fn end_origin(end: End) -> Origin
    ensures { result ≡ origins.end_origin end }
{
    match end {
        End::Reg(reg) => Origin::Reg(reg),
        End::Output(_) => Origin::Free,
    }
}

/// Whether a net has keys of its own in a layer after the cycle itself, by the number of through sets come through.
pub fn has_own(subject: &Subject, layer: usize, net: usize) -> bool
    requires subject { IsSubject subject.now }
    requires layer { layer ≤ length subject.now.claim.now.through }
    requires net { net < subject.now.design.now.nets }
    ensures { result ≡ has_own subject.now.claim.now subject.now.moved layer net }
{
    subject.moved.has(layer, net) && !is_held(&subject.claim.through, layer, PinRef::Net(net))
}

/// What defines a net of a layer, or the late capture, where the layer has come through so many sets.
fn late_origin(subject: &Subject, sets: usize, key: Key) -> Origin
    requires subject { IsSubject subject.now }
    requires sets { sets ≤ length subject.now.claim.now.through }
    ensures { result ≡ origins.late_origin subject.now.design.now subject.now.claim.now subject.now.moved sets key }
{
    let (design, claim) = (subject.design, subject.claim);
    if key.point < design.nets {
        if has_own(subject, sets, key.point) {
            of_gate(subject.tables.gates().at(key.point))
        } else {
            Origin::Free
        }
    } else if key.point == design.nets + design.regs.len() && sets == claim.through.len() {
        end_origin(claim.end)
    } else {
        Origin::Free
    }
}

/// What defines a key of a cycle itself.
fn cycle_origin(subject: &Subject, cycles: usize, key: Key) -> Origin
    requires subject { IsSubject subject.now }
    ensures { result ≡ origins.layer_origin subject.now.design.now subject.now.claim.now subject.now.moved cycles key 0 }
{
    let design = subject.design;
    let first = design.nets + design.regs.len();
    if key.rail != 0 {
        Origin::Free
    } else if key.point < first {
        base_origin(design, subject.tables.gates(), cycles, key)
    } else if key.cycle < cycles {
        extra_origin(subject.claim, key.point - first)
    } else {
        Origin::Free
    }
}

fn has_rail(claim: &Claim, rail: usize) -> bool
    ensures { result ≡ origins.has_rail claim.now rail }
{
    rail == 0 || (claim.hazard && rail == 1)
}

/// What defines a key where it is asked about a claim.
pub fn claim_origin(subject: &Subject, cycles: usize, key: Key) -> Origin
    requires subject { IsSubject subject.now }
    ensures { result ≡ origins.claim_origin subject.now.design.now subject.now.claim.now subject.now.moved cycles key }
{
    if key.layer == 0 {
        return cycle_origin(subject, cycles, key);
    }
    let claim = subject.claim;
    let sets = key.layer - 1;
    if key.cycle < cycles && sets <= claim.through.len() && has_rail(claim, key.rail) {
        late_origin(subject, sets, key)
    } else {
        Origin::Free
    }
}
