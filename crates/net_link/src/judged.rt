//! The netlist that is judged.
ghost use Rattle.std.specs.Prelude.{◌≡◌, ◌<◌, All, length, IfOk};
ghost use Rattle.link_defs.specs.Cuts.{IsFitItem};
ghost use Rattle.link_defs.specs.Judged.{FlatNetlist};
ghost use Rattle.link_design.specs.Lawful.{IsLawfulCircuit};
ghost use Rattle.link_clocks.specs.Netlists.{AreCellsBelow, IsJudgedOf, IsNetlist};
ghost use Rattle.link_items.specs.Items.{module_at};
ghost use Rattle.net_link.specs.Judged.{IsJudgedBelow, as_cut};
ghost use Rattle.net_link.specs.Limits.{HasFewBits};
ghost use Rattle.net_link.specs.Stages.{IsFlatCircuit};

use link_circuit::FlatCircuit;
use link_clocks::{CutNetlist, judged_is_one, off_clock};
use link_cuts::cut_cells;
use link_defs::{CutCell, CutItem};
use link_items::Netlist;
use linked_types::LinkOptions;
use sdcv_base::Seq;
use std::alloc::{AllocError, Global};

/// The circuit that is judged, with its instances and its leaves, and the cells that are cut out of it.
#[derive(Drop)]
pub struct JudgedCircuit {
    pub flat: FlatCircuit,
    pub cells: Seq<CutCell>,
}

/// The circuit below the top module, and the cells that the items are; where one clock of several is judged, what it doesn't
/// come to is cut out too.
pub(crate) fn judged_circuit(
    alloc: Global,
    netlist: &Netlist,
    items: &Seq<CutItem>,
    top: usize,
    options: &LinkOptions,
    c: FlatCircuit,
) -> Result<JudgedCircuit, AllocError>
    requires top { top < length netlist.now.source.now.modules }
    requires circuit { IsFlatCircuit netlist.now.source.now netlist.now.library.now (module_at netlist.now.source.now top) options.now.clock c }
    requires few { HasFewBits options.now.wide (module_at netlist.now.source.now top) options.now.clock }
    requires items { All (IsFitItem netlist.now.source.now) items.now }
    ensures { IfOk result (λ x. (j : FlatNetlist) × IsJudgedBelow (record { source = netlist.now.source.now; items = items.now }) netlist.now.library.now
        (module_at netlist.now.source.now top) options.now j x) }
{
    let cells = cut_cells(alloc, netlist, &c.scopes, items)?;
    if !options.cut_clocks {
        return Ok(JudgedCircuit { flat: c, cells });
    }
    judged_is_one();
    let judged = on_clock(alloc, netlist, c, cells)?;
    Ok(judged)
}

/// What is left of a circuit on the clock.
fn on_clock(
    alloc: Global,
    netlist: &Netlist,
    c: FlatCircuit,
    cells: Seq<CutCell>,
) -> Result<JudgedCircuit, AllocError>
    requires lawful { IsLawfulCircuit c.circuit }
    requires leaves { (n : FlatNetlist) × IsNetlist netlist.now.library.now (as_cut (record { flat = c; cells = cells })) n }
    requires nets { AreCellsBelow c.circuit.nets cells }
    ensures judged { IfOk result (λ x. (n : FlatNetlist) → IsNetlist netlist.now.library.now (as_cut (record { flat = c; cells = cells })) n
        → IsJudgedOf netlist.now.library.now n (as_cut x)) }
    ensures scopes { IfOk result (λ x. x.flat.scopes ≡ c.scopes) }
    ensures lawful { IfOk result (λ x. IsLawfulCircuit x.flat.circuit) }
    ensures nets { IfOk result (λ x. AreCellsBelow x.flat.circuit.nets x.cells) }
{
    let FlatCircuit {
        circuit,
        scopes,
        leaves,
    } = c;
    let whole = CutNetlist {
        circuit,
        leaves,
        cells,
    };
    let left = off_clock(alloc, netlist.library, whole)?;
    let CutNetlist {
        circuit,
        leaves,
        cells,
    } = left;
    let flat = FlatCircuit {
        circuit,
        scopes,
        leaves,
    };
    Ok(JudgedCircuit { flat, cells })
}
