//! Rows over the nets of a circuit, and what stands above a net by them.
ghost use Rattle.std.specs.Prelude.{◌≡◌, ◌≤◌, ◌==◌, ℕ, IfOk, None, length, count_by, slice_index_or};
ghost use Rattle.net_model.specs.Netlist.{AllBelow};
ghost use Rattle.link_design.specs.Rows.{IsDriverRow};
ghost use Rattle.net_link.specs.GateNets.{outs_of};
ghost use Rattle.net_link.specs.Rows.{AreEnabled, enabled_number, place_above};

use crate::gate_nets::{GateNets, outs_of};
use link_design::{CircuitFault, driver_row};
use sdcv_base::Seq;
use std::alloc::{AllocError, Global};

/// For each net the place of the clock gate that drives it, and their number where none does.
pub(crate) fn gate_row(
    alloc: Global,
    gates: &Seq<GateNets>,
    nets: usize,
) -> Result<Seq<usize>, AllocError>
    requires below { AllBelow nets (outs_of gates.now) }
    requires once { (net : ℕ) → count_by (λ m. m == net) (outs_of gates.now) ≤ 1 }
    ensures { IfOk result (IsDriverRow (outs_of gates.now) nets) }
{
    let outs = outs_of(alloc, gates)?;
    match driver_row(alloc, &outs, nets) {
        Ok(row) => Ok(row),
        Err(fault) => match fault {
            CircuitFault::Memory => Err(AllocError),
            // No net has two drivers.
            _ => unreachable!(),
        },
    }
}

/// What a row of numbers has for a net; 0 for one that is not in the row.
pub(crate) fn number_in(row: &Seq<usize>, net: usize) -> usize
    ensures { result ≡ slice_index_or row.now net 0 }
{
    if net < row.len() { row.at(net) } else { 0 }
}

/// The net that the clock gate above a net drives, if there is one.
fn gate_above(above: &Seq<Option<usize>>, net: usize) -> Option<usize>
    ensures { result ≡ slice_index_or above.now net None }
{
    if net < above.len() {
        above.at(net)
    } else {
        None
    }
}

/// The place of the clock gate above a net, if there is one, by the row of the places of clock gates.
pub(crate) fn place_above(above: &Seq<Option<usize>>, row: &Seq<usize>, net: usize) -> Option<usize>
    ensures { result ≡ place_above above.now row.now net }
{
    match gate_above(above, net) {
        None => None,
        Some(out) => Some(number_in(row, out)),
    }
}

/// The number of a net in the rewritten design, by its number among so many nets of the design and by the place of the clock
/// gate that drives it: these come after the design's nets.
fn enabled_number(nets: usize, number: usize, place: usize) -> Result<usize, AllocError>
    ensures { IfOk result (λ enabled. enabled ≡ enabled_number nets number place) }
{
    if number < nets {
        return Ok(number);
    }
    match nets.checked_add(place) {
        Some(enabled) => Ok(enabled),
        // A number does not count so many, and no memory holds them.
        None => Err(AllocError),
    }
}

/// For each net of a circuit its number in the rewritten design, by its number among so many nets of the design and by the
/// row of the places of clock gates. A net of neither has the number of all nets of the rewritten design.
pub(crate) fn enabled_numbers(
    alloc: Global,
    numbers: &Seq<usize>,
    nets: usize,
    row: &Seq<usize>,
) -> Result<Seq<usize>, AllocError>
    ensures { IfOk result (AreEnabled nets numbers.now row.now (length numbers.now)) }
{
    let mut list = Seq::new(alloc);
    for net in 0..numbers.len() {
        let number = number_in(numbers, net);
        let place = number_in(row, net);
        let enabled = enabled_number(nets, number, place)?;
        list.push(enabled)?;
    }
    Ok(list)
}
