//! Whether cells can be cut out.
ghost use Rattle.std.specs.Prelude.{◌≡◌, None, All, OnOk, IfErr};
ghost use Rattle.link_defs.specs.declared.cuts.CutCell.{CutCell as CellRecord};
ghost use Rattle.link_cuts.specs.Checks.{IsCellFault, IsFaultOf};

use link_defs::{CutCell, CutFault};
use link_items::pin_name;
use linked_types::LinkFault;
use sdcv_base::Seq;
use std::alloc::Global;

/// Refuses cells one of which can't be cut out, and nothing else.
pub fn check_cells(alloc: Global, cells: &Seq<CutCell>) -> Result<(), LinkFault>
    ensures ok { OnOk result (All (λ (x : CellRecord). x.fault ≡ None) cells.now) }
    ensures err { IfErr result (IsCellFault cells.now) }
{
    for cell in cells.as_slice() {
        check_cell(alloc, cell)?;
    }
    Ok(())
}

/// Refuses a cell that can't be cut out.
fn check_cell(alloc: Global, cell: &CutCell) -> Result<(), LinkFault>
    ensures ok { OnOk result (cell.now.fault ≡ None) }
    ensures err { IfErr result (IsFaultOf cell.now) }
{
    match &cell.fault {
        None => Ok(()),
        Some(CutFault::Stray(pin)) => {
            let name = pin_name(alloc, &cell.name, pin)?;
            Err(LinkFault::UnknownPin(name))
        }
        Some(CutFault::Tied(pin)) => {
            let name = pin_name(alloc, &cell.name, pin)?;
            Err(LinkFault::ManyDrivers(name))
        }
    }
}
