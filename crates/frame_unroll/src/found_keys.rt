//! The keys that definitions read, added to those that were found.
ghost use Rattle.std.specs.Prelude.{◌≡◌, ◌<◌, ◌≤◌, ◌+◌, ◌-◌, ◌^◌, [], ◌∷◌, Some, length, slice_get, map, if◌then◌else◌, OnOk};
ghost use Rattle.net_model.specs.Form.{value};
ghost use Rattle.net_model.specs.Netlist.{AllBelow, IsSound};
ghost use Rattle.net_model.specs.declared.netlist.Gate.{Gate as GateRecord};
ghost use Rattle.query_model.specs.Reads.{read_base};
ghost use Rattle.frame_unroll.specs.Gathered.{reads_at};
ghost use Rattle.frame_unroll.specs.Sites.{gate_rail, counted_rail};
ghost use Rattle.frame_unroll.specs.Counting.{marked};
ghost use Rattle.frame_unroll.specs.Reading.{IsSubject};
ghost use Rattle.frame_unroll.specs.Found.{IsOriginIn, IsOriginAt, marked_rail, marked_low, marked_rails, with_key, with_clauses, Finds};
ghost use Rattle.frame_unroll.specs.declared.sites.Rail.{Rail as RailRecord};
ghost use Rattle.frame_unroll.specs.Origins as origins;
ghost use Rattle.frame_unroll.specs.Pairs.{reads_of};

use crate::drivers::base_lit;
use crate::gathered::{Owner, RailAt, pin_of};
use crate::key_sets::KeySet;
use crate::origins::{Origin, claim_origin};
use crate::pairs::{Pair, change_pair, differ_pair, stale_pair, toggle_pair};
use crate::reads::pin_lit;
use crate::sites::{Rail, Site, bit_site, late_reg_site};
use crate::subjects::Subject;
use crate::tables::Tables;
use query_model::{Key, KeyLit};
use sdcv_base::Seq;
use std::alloc::{AllocError, Global};

/// Adds the keys of these literals that are new, in their order.
fn add_keys(lits: &Seq<KeyLit>, found: &mut KeySet) -> Result<(), AllocError>
    ensures { OnOk result (Finds lits.now found.old found.new) }
{
    for i in 0..lits.len() {
        found.insert(lits.at(i).key)?;
    }
    Ok(())
}

/// Adds the key where its place counts.
fn add_where(counts: bool, key: Key, found: &mut KeySet) -> Result<(), AllocError>
    ensures { OnOk result (found.new ≡ (if counts then with_key found.old key else found.old)) }
{
    if counts {
        found.insert(key)?;
    }
    Ok(())
}

/// Adds the keys of those of these literals whose places count, in their order.
fn add_counted(lits: &Seq<KeyLit>, places: &Seq<bool>, found: &mut KeySet) -> Result<(), AllocError>
    requires { length places.now ≡ length lits.now }
    ensures { OnOk result (Finds (marked places.now lits.now) found.old found.new) }
{
    for i in 0..lits.len() {
        let counts = places.at(i);
        let lit = lits.at(i);
        add_where(counts, lit.key, found)?;
    }
    Ok(())
}

/// Adds the keys of the literals of these clauses that are new, in their order.
pub fn add_clauses(clauses: &Seq<Seq<KeyLit>>, found: &mut KeySet) -> Result<(), AllocError>
    ensures { OnOk result (found.new ≡ with_clauses found.old clauses.now) }
{
    for i in 0..clauses.len() {
        add_keys(clauses.item(i), found)?;
    }
    Ok(())
}

/// Adds the keys of the literals of a pair.
fn add_pair(pair: Pair, found: &mut KeySet) -> Result<(), AllocError>
    ensures { OnOk result (Finds (reads_of pair) found.old found.new) }
{
    found.insert(pair.first.key)?;
    found.insert(pair.second.key)?;
    Ok(())
}

/// Adds the keys that those of the pins on these nets read in a cycle whose places count.
fn add_pins(
    tables: &Tables,
    cycle: usize,
    ins: &Seq<usize>,
    places: &Seq<bool>,
    found: &mut KeySet,
) -> Result<(), AllocError>
    requires sound { IsSound tables.now.design }
    requires nets { AllBelow tables.now.design.nets ins.now }
    requires long { length places.now ≡ length ins.now }
    ensures { OnOk result (Finds (marked places.now (map (read_base tables.now.design cycle) ins.now)) found.old found.new) }
{
    let (design, drivers) = (tables.design(), tables.drivers());
    for i in 0..ins.len() {
        let counts = places.at(i);
        let lit = base_lit(design, drivers, cycle, ins.at(i));
        add_where(counts, lit.key, found)?;
    }
    Ok(())
}

fn add_base_gate(
    tables: &Tables,
    cycle: usize,
    gate: usize,
    found: &mut KeySet,
) -> Result<(), AllocError>
    requires sound { IsSound tables.now.design }
    requires gate { gate < length tables.now.design.gates }
    ensures { OnOk result (Finds (origins.gate_base tables.now.coding tables.now.design cycle (slice_get tables.now.design.gates gate))
        found.old found.new) }
{
    let driver = tables.design().gates.item(gate);
    add_pins(tables, cycle, &driver.ins, tables.gate_places(gate), found)
}

fn add_base_reg(
    alloc: Global,
    tables: &Tables,
    cycle: usize,
    reg: usize,
    found: &mut KeySet,
) -> Result<(), AllocError>
    requires sound { IsSound tables.now.design }
    requires cycle { cycle + 1 < 2 ^ 64 }
    requires reg { reg < length tables.now.design.regs }
    ensures { OnOk result (Finds (origins.reg_base tables.now.coding tables.now.design cycle reg (slice_get tables.now.design.regs reg))
        found.old found.new) }
{
    let site = bit_site(alloc, tables.design(), tables.drivers(), cycle, reg)?;
    add_counted(&site.high.reads, tables.reg_places(reg), found)
}

/// Adds the keys by which a net or a register's bit is defined in a cycle.
pub fn add_base_reads(
    alloc: Global,
    tables: &Tables,
    key: Key,
    origin: Origin,
    found: &mut KeySet,
) -> Result<(), AllocError>
    requires sound { IsSound tables.now.design }
    requires origin { IsOriginIn tables.now.design origin }
    ensures { OnOk result (Finds (origins.reads_of_origin tables.now.coding tables.now.design key origin) found.old found.new) }
{
    match origin {
        Origin::Gate(gate) => add_base_gate(tables, key.cycle, gate, found),
        Origin::Reg(reg) => {
            let before = key.cycle.saturating_sub(1);
            add_base_reg(alloc, tables, before, reg, found)
        }
        _ => Ok(()),
    }
}

/// Adds what counts of what is read on a rail, and the key that is defined there.
fn add_rail(rail: &Rail, places: &Seq<bool>, found: &mut KeySet) -> Result<(), AllocError>
    requires { length places.now ≡ length rail.now.reads }
    ensures { OnOk result (Finds (marked_rail places.now rail.now) found.old found.new) }
{
    add_counted(&rail.reads, places, found)?;
    found.insert(rail.out)?;
    Ok(())
}

/// The same of the other rail, if there is one.
fn add_low(low: &Option<Rail>, places: &Seq<bool>, found: &mut KeySet) -> Result<(), AllocError>
    requires { (rail : RailRecord) → low.now ≡ Some rail → length places.now ≡ length rail.reads }
    ensures { OnOk result (Finds (marked_low places.now low.now) found.old found.new) }
{
    match low {
        None => Ok(()),
        Some(rail) => add_rail(rail, places, found),
    }
}

/// Adds what counts of what is read at a site, and the keys that are defined there.
fn add_site(site: &Site, places: &Seq<bool>, found: &mut KeySet) -> Result<(), AllocError>
    requires high { length places.now ≡ length site.now.high.reads }
    requires low { (rail : RailRecord) → site.now.low ≡ Some rail → length places.now ≡ length rail.reads }
    ensures { OnOk result (Finds (marked_rails places.now site.now) found.old found.new) }
{
    add_rail(&site.high, places, found)?;
    add_low(&site.low, places, found)
}

/// Adds the keys that those of an owner's pins on these nets read on a rail of a layer whose places count.
fn add_pins_at(
    subject: &Subject,
    owner: Owner,
    ins: &Seq<usize>,
    places: &Seq<bool>,
    rail_at: RailAt,
    found: &mut KeySet,
) -> Result<(), AllocError>
    requires subject { IsSubject subject.now }
    requires nets { AllBelow subject.now.design.now.nets ins.now }
    requires layer { rail_at.layer ≤ length subject.now.claim.now.through + 1 }
    requires long { length places.now ≡ length ins.now }
    ensures { OnOk result (Finds (marked places.now (reads_at subject.now.design.now subject.now.claim.now subject.now.moved owner ins.now rail_at))
        found.old found.new) }
{
    for i in 0..ins.len() {
        let counts = places.at(i);
        let key = Key {
            cycle: rail_at.cycle,
            layer: rail_at.layer,
            rail: rail_at.rail,
            point: ins.at(i),
        };
        let lit = pin_lit(subject, pin_of(owner, i), key);
        add_where(counts, lit.key, found)?;
    }
    Ok(())
}

/// Adds what those of a gate's pins that count read on a rail of a layer, and the key of its net there.
fn add_gate_rail(
    subject: &Subject,
    rail_at: RailAt,
    gate: usize,
    found: &mut KeySet,
) -> Result<(), AllocError>
    requires subject { IsSubject subject.now }
    requires layer { rail_at.layer ≤ length subject.now.claim.now.through + 1 }
    requires gate { gate < length subject.now.design.now.gates }
    ensures { OnOk result ((g : GateRecord) → slice_get subject.now.design.now.gates gate ≡ Some g → Finds (counted_rail subject.now.tables.now.coding
        (value g.func) (gate_rail subject.now.design.now subject.now.claim.now subject.now.moved rail_at.cycle rail_at.layer rail_at.rail gate g))
        found.old found.new) }
{
    let driver = subject.design.gates.item(gate);
    let places = subject.tables.gate_places(gate);
    add_pins_at(
        subject,
        Owner::Gate(gate),
        &driver.ins,
        places,
        rail_at,
        found,
    )?;
    found.insert(Key {
        cycle: rail_at.cycle,
        layer: rail_at.layer,
        rail: rail_at.rail,
        point: driver.out,
    })?;
    Ok(())
}

/// Adds what those of a gate's pins that count read in a layer, and the keys of its net there.
fn add_late_gate(
    subject: &Subject,
    cycle: usize,
    layer: usize,
    gate: usize,
    found: &mut KeySet,
) -> Result<(), AllocError>
    requires subject { IsSubject subject.now }
    requires gate { gate < length subject.now.design.now.gates }
    requires late { 0 < layer }
    requires layer { layer ≤ length subject.now.claim.now.through + 1 }
    ensures { OnOk result (Finds (origins.gate_late subject.now.tables.now.coding subject.now.design.now subject.now.claim.now subject.now.moved
        cycle (layer - 1) gate (slice_get subject.now.design.now.gates gate)) found.old found.new) }
{
    let high = RailAt {
        cycle,
        layer,
        rail: 0,
    };
    add_gate_rail(subject, high, gate, found)?;
    if !subject.claim.hazard {
        return Ok(());
    }
    let low = RailAt {
        cycle,
        layer,
        rail: 1,
    };
    add_gate_rail(subject, low, gate, found)?;
    Ok(())
}

/// Adds what a register's pins read in the last layer, and the keys of the late capture.
fn add_late_reg(
    alloc: Global,
    subject: &Subject,
    cycle: usize,
    reg: usize,
    found: &mut KeySet,
) -> Result<(), AllocError>
    requires subject { IsSubject subject.now }
    requires reg { reg < length subject.now.design.now.regs }
    ensures { OnOk result (Finds (origins.reg_late subject.now.tables.now.coding subject.now.design.now subject.now.claim.now subject.now.moved cycle reg
        (slice_get subject.now.design.now.regs reg)) found.old found.new) }
{
    let site = late_reg_site(alloc, subject, cycle, reg)?;
    add_site(&site, subject.tables.reg_places(reg), found)
}

/// Adds the keys by which a key of a layer after the cycle itself is defined.
fn add_late_reads(
    alloc: Global,
    subject: &Subject,
    key: Key,
    origin: Origin,
    found: &mut KeySet,
) -> Result<(), AllocError>
    requires subject { IsSubject subject.now }
    requires late { 0 < key.layer }
    requires origin { IsOriginAt subject.now.design.now subject.now.claim.now key.layer origin }
    ensures { OnOk result (Finds (origins.late_reads subject.now.tables.now.coding subject.now.design.now subject.now.claim.now subject.now.moved
        key (key.layer - 1) origin) found.old found.new) }
{
    match origin {
        Origin::Gate(gate) => add_late_gate(subject, key.cycle, key.layer, gate, found),
        Origin::Reg(reg) => add_late_reg(alloc, subject, key.cycle, reg, found),
        _ => Ok(()),
    }
}

/// Adds the keys by which a key of the cycle itself is defined.
fn add_cycle_reads(
    alloc: Global,
    subject: &Subject,
    key: Key,
    origin: Origin,
    found: &mut KeySet,
) -> Result<(), AllocError>
    requires subject { IsSubject subject.now }
    requires origin { IsOriginIn subject.now.design.now origin }
    requires early { key.cycle < 2 ^ 32 }
    ensures { OnOk result (Finds (origins.reads_in_layer subject.now.tables.now.coding subject.now.design.now subject.now.claim.now subject.now.moved
        key 0 origin) found.old found.new) }
{
    match origin {
        Origin::Toggle => add_pair(toggle_pair(subject, key.cycle), found),
        Origin::Change => add_pair(change_pair(subject, key.cycle), found),
        Origin::Differ => add_pair(differ_pair(subject, key.cycle), found),
        Origin::Stale(later) => add_pair(stale_pair(subject, key.cycle, later), found),
        _ => add_base_reads(alloc, subject.tables, key, origin, found),
    }
}

/// Adds the keys by which a key is defined where it is asked about a claim.
pub fn add_claim_reads(
    alloc: Global,
    subject: &Subject,
    cycles: usize,
    key: Key,
    found: &mut KeySet,
) -> Result<(), AllocError>
    requires subject { IsSubject subject.now }
    requires early { key.cycle < 2 ^ 32 }
    ensures { OnOk result (Finds (origins.claim_reads subject.now.tables.now.coding subject.now.design.now subject.now.claim.now subject.now.moved cycles key)
        found.old found.new) }
{
    let origin = claim_origin(subject, cycles, key);
    if key.layer == 0 {
        add_cycle_reads(alloc, subject, key, origin, found)
    } else {
        add_late_reads(alloc, subject, key, origin, found)
    }
}
