//! The clock tree: what a walk from the clock's net comes to.
ghost use Rattle.std.specs.Prelude.{◌≡◌, ◌≤◌, ◌==◌, ℕ, count_by, IfOk, IfErr, OnOk};
ghost use Rattle.std.specs.List.{position};
ghost use Rattle.link_defs.specs.Circuits.{all_drivers};
ghost use Rattle.link_defs.specs.Above.{IsAboveRow};
ghost use Rattle.link_design.specs.Faults.{IsCause};
ghost use Rattle.link_design.specs.Lawful.{IsLawfulCircuit};
ghost use Rattle.link_design.specs.Made.{IsClocked};
ghost use Rattle.link_design.specs.Trees.{IsWalked, IsTreeRow, is_tree_gate, is_off, is_off_clock};

use crate::faults::CircuitFault;
use crate::lists::all_data;
use crate::marks::{first_marked, has_marked, is_marked};
use crate::readers::ClockReaders;
use crate::walks::Walk;
use link_defs::{Circuit, Part};
use net_model::Gate;
use sdcv_base::Seq;
use std::alloc::{AllocError, Global};

/// The nets below the clock, those of them after an odd number of inversions, the clock gate above each of them, if there is
/// one, by the net that this drives, and those of them that are lost, behind a clock gate that gets the clock's complement.
///
/// What always holds: the others are the clock tree. Where each clock gate is on the clock no net is lost.
#[derive(Drop)]
pub(crate) struct ClockTree {
    pub(crate) tree: Seq<bool>,
    pub(crate) odd: Seq<bool>,
    pub(crate) above: Seq<Option<usize>>,
    pub(crate) lost: Seq<bool>,
}

/// The clock tree of a circuit, found by a walk from the clock's net: through each net once, and each part that hands the
/// clock on from it.
pub(crate) fn clock_tree(alloc: Global, circuit: &Circuit) -> Result<ClockTree, AllocError>
    requires lawful { IsLawfulCircuit circuit.now }
    requires once { (net : ℕ) → count_by (λ m. m == net) (all_drivers circuit.now) ≤ 1 }
    ensures tree { IfOk result (λ t. IsWalked circuit.now t.tree t.odd t.lost) }
    ensures above { IfOk result (λ t. IsAboveRow circuit.now t.above) }
{
    let readers = ClockReaders::of(alloc, circuit)?;
    let mut walk = Walk::at_clocks(alloc, circuit)?;
    let mut visited = 0;
    while visited < walk.nets.len() {
        walk.visit(circuit, &readers, visited)?;
        visited += 1;
    }
    Ok(ClockTree {
        tree: walk.tree,
        odd: walk.odd,
        above: walk.above,
        lost: walk.lost,
    })
}

/// Whether a gate, of a buffer or inverter or not, reads a net of the clock tree.
pub(crate) fn is_tree_gate(tree: &Seq<bool>, buffer: bool, gate: &Gate) -> bool
    ensures { result ≡ is_tree_gate tree.now buffer gate.now }
{
    buffer && has_marked(tree, gate.ins.as_slice())
}

/// Refuses a register or a clock gate that is not on the clock, and a net of the clock tree that is read as data. A part on a
/// lost net is refused itself where that is odd; else the clock gate that lost the net is.
pub(crate) fn check_clock(
    alloc: Global,
    circuit: &Circuit,
    clock: &ClockTree,
) -> Result<(), CircuitFault>
    requires { IsWalked circuit.now clock.now.tree clock.now.odd clock.now.lost }
    ensures ok { OnOk result (IsClocked circuit.now) }
    ensures tree { OnOk result (IsTreeRow circuit.now clock.now.tree clock.now.odd) }
    ensures err { IfErr result (IsCause circuit.now) }
{
    if let Some(place) = first_off_clock(clock, circuit.parts.as_slice()) {
        return Err(CircuitFault::NotTheClock(place));
    }
    let data = all_data(alloc, circuit)?;
    if let Some(net) = first_marked(&clock.tree, data.as_slice()) {
        return Err(CircuitFault::ClockAsData(net));
    }
    Ok(())
}

/// The place of the first register or clock gate that is not on the clock, if any.
fn first_off_clock(clock: &ClockTree, parts: &[Part]) -> Option<usize>
    ensures { result ≡ position (is_off_clock clock.now.tree clock.now.odd) parts.now }
{
    parts.iter().position(|part| is_off_clock(clock, part))
}

/// Whether a part is a register or a clock gate whose clock pin is not below the clock after an even number of inversions.
fn is_off_clock(clock: &ClockTree, part: &Part) -> bool
    ensures { result ≡ is_off_clock clock.now.tree clock.now.odd part.now }
{
    match part {
        Part::Comb { .. } => false,
        Part::Flop { clock: net, .. } => is_off(clock, *net),
        Part::Gate { clock: net, .. } => is_off(clock, *net),
    }
}

/// Whether a net is not below the clock after an even number of inversions.
fn is_off(clock: &ClockTree, net: usize) -> bool
    ensures { result ≡ is_off clock.now.tree clock.now.odd net }
{
    !(is_marked(&clock.tree, net) && !is_marked(&clock.odd, net))
}
