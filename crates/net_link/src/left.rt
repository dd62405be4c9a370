//! What is left of a circuit where cells are cut out of it.
ghost use Rattle.std.specs.Prelude.{◌≤◌, ◌==◌, ℕ, List, All, count_by, IfOk, IfErr, OnOk};
ghost use Rattle.link_defs.specs.declared.cuts.CutItem.{CutItem as CutItemRecord};
ghost use Rattle.link_defs.specs.Circuits.{all_drivers};
ghost use Rattle.link_defs.specs.Cuts.{IsFitItem};
ghost use Rattle.link_defs.specs.Faults.{IsCause};
ghost use Rattle.link_defs.specs.Flatten.{flat_of};
ghost use Rattle.link_defs.specs.Judged.{FlatNetlist};
ghost use Rattle.linked_types.specs.declared.options.LinkOptions.{LinkOptions as LinkOptionsRecord};
ghost use Rattle.link_design.specs.Lawful.{IsLawfulCircuit};
ghost use Rattle.link_clocks.specs.Netlists.{AreCellsBelow};
ghost use Rattle.link_items.specs.Items.{module_at};
ghost use Rattle.link_tops.specs.Tops.{IsTop};
ghost use Rattle.net_link.specs.Judged.{IsJudgedBelow};
ghost use Rattle.net_link.specs.Left.{AreOffDrivers, IsDriverCause, IsLeft, IsLeftHere, IsLimitHere};
ghost use Rattle.net_link.specs.Limits.{HasFewBits};
ghost use Rattle.net_link.specs.Stages.{IsFlatCircuit};

use crate::judged::{JudgedCircuit, judged_circuit};
use crate::limits::{above_inputs, most_inputs};
use link_circuit::{FlatCircuit, net_name};
use link_cuts::{Cut, CutPins, check_cells, cut, cuts_are_one, driven_pin};
use link_defs::{CutCell, CutItem};
use link_design::{CircuitFault, check_once};
use link_items::Netlist;
use link_tops::check_names;
use linked_types::{LinkFault, LinkOptions};
use sdcv_base::{LimitName, Seq};
use std::alloc::Global;

/// Cells that are cut out of a circuit, with what was found of their pins.
#[derive(Drop)]
pub struct CutOut {
    pub cells: Seq<CutCell>,
    pub pins: CutPins,
}

/// What is left of a circuit where cells are cut out of it, with its instances and its leaves, and these cells; or the whole
/// circuit.
#[derive(Drop)]
pub struct LeftCircuit {
    pub flat: FlatCircuit,
    pub cut: Option<CutOut>,
}

/// What is left of the circuit below the top module where the items are cut out of it, and with one clock of several what it
/// doesn't come to. Where nothing is to be cut out, it goes through as it is.
pub(crate) fn cut_out(
    alloc: Global,
    netlist: &Netlist,
    items: &Seq<CutItem>,
    top: usize,
    options: &LinkOptions,
    c: FlatCircuit,
) -> Result<LeftCircuit, LinkFault>
    requires top { IsTop netlist.now.source.now top }
    requires circuit { IsFlatCircuit netlist.now.source.now netlist.now.library.now (module_at netlist.now.source.now top) options.now.clock c }
    requires few { HasFewBits options.now.wide (module_at netlist.now.source.now top) options.now.clock }
    requires items { All (IsFitItem netlist.now.source.now) items.now }
    ensures ok { IfOk result (λ l. (j : FlatNetlist) × IsLeft (record { source = netlist.now.source.now; items = items.now }) netlist.now.library.now
        (module_at netlist.now.source.now top) options.now j l) }
    ensures err { IfErr result (IsCause (record { source = netlist.now.source.now; items = items.now }) netlist.now.library.now options.now) }
{
    if items.is_empty() && !options.cut_clocks {
        return Ok(LeftCircuit { flat: c, cut: None });
    }
    let judged = judged_circuit(alloc, netlist, items, top, options, c)?;
    check_names(alloc, &judged.flat.leaves, &judged.cells)?;
    check_cells(alloc, &judged.cells)?;
    check_drivers(alloc, netlist, top, &judged)?;
    let JudgedCircuit { flat, cells } = judged;
    cuts_are_one(&cells);
    let left = left_of(alloc, flat, cells, options.wide)?;
    Ok(left)
}

/// Refuses a net with two drivers, and an output of a cell that is cut out on a net that the circuit drives.
fn check_drivers(
    alloc: Global,
    netlist: &Netlist,
    top: usize,
    judged: &JudgedCircuit,
) -> Result<(), LinkFault>
    requires { (items : List CutItemRecord) × (o : LinkOptionsRecord) × (j : FlatNetlist) × IsJudgedBelow
        (record { source = netlist.now.source.now; items = items }) netlist.now.library.now (module_at netlist.now.source.now top) o j judged.now }
    ensures once { OnOk result ((net : ℕ) → count_by (λ m. m == net) (all_drivers judged.now.flat.circuit) ≤ 1) }
    ensures off { OnOk result (AreOffDrivers judged.now.flat.circuit judged.now.cells) }
    ensures err { IfErr result (IsDriverCause (flat_of netlist.now.source.now netlist.now.library.now (module_at netlist.now.source.now top))
        judged.now.flat.circuit judged.now.cells) }
{
    check_single(alloc, netlist, top, judged)?;
    let c = &judged.flat;
    let place = driven_pin(alloc, &c.circuit, &judged.cells)?;
    match place {
        None => Ok(()),
        Some(place) => {
            let net = judged.cells.item(place.cell).pins.item(place.pin).net;
            Err(LinkFault::ManyDrivers(net_name(alloc, netlist, &c.scopes, net)?))
        }
    }
}

/// Refuses a net with two drivers.
fn check_single(
    alloc: Global,
    netlist: &Netlist,
    top: usize,
    judged: &JudgedCircuit,
) -> Result<(), LinkFault>
    requires { (items : List CutItemRecord) × (o : LinkOptionsRecord) × (j : FlatNetlist) × IsJudgedBelow
        (record { source = netlist.now.source.now; items = items }) netlist.now.library.now (module_at netlist.now.source.now top) o j judged.now }
    ensures once { OnOk result ((net : ℕ) → count_by (λ m. m == net) (all_drivers judged.now.flat.circuit) ≤ 1) }
    ensures err { IfErr result (IsDriverCause (flat_of netlist.now.source.now netlist.now.library.now (module_at netlist.now.source.now top))
        judged.now.flat.circuit judged.now.cells) }
{
    let c = &judged.flat;
    match check_once(alloc, &c.circuit) {
        Ok(()) => Ok(()),
        Err(CircuitFault::ManyDrivers(net)) => {
            Err(LinkFault::ManyDrivers(net_name(alloc, netlist, &c.scopes, net)?))
        }
        // No other refusal is one of drivers.
        Err(_) => Err(LinkFault::Memory),
    }
}

/// What is left of a circuit where these cells are cut out of it. `Limit` tells of too many data inputs.
fn left_of(
    alloc: Global,
    c: FlatCircuit,
    cells: Seq<CutCell>,
    wide: bool,
) -> Result<LeftCircuit, LinkFault>
    requires lawful { IsLawfulCircuit c.circuit }
    requires once { (net : ℕ) → count_by (λ m. m == net) (all_drivers c.circuit) ≤ 1 }
    requires nets { AreCellsBelow c.circuit.nets cells }
    ensures ok { IfOk result (IsLeftHere c cells wide) }
    ensures err { IfErr result (IsLimitHere c.circuit cells wide) }
{
    let FlatCircuit {
        circuit,
        scopes,
        leaves,
    } = c;
    let Cut { circuit, pins } = cut(alloc, circuit, &cells)?;
    if circuit.inputs.len() > most_inputs(wide) {
        return Err(LinkFault::Limit(LimitName::Inputs, above_inputs(wide)));
    }
    let flat = FlatCircuit {
        circuit,
        scopes,
        leaves,
    };
    let cut = Some(CutOut { cells, pins });
    Ok(LeftCircuit { flat, cut })
}
