//! The clock gate among the cells that are known without a file.
ghost use Rattle.std.specs.Prelude.{◌≡◌, ◌++◌, ◌∷◌, [], IfOk, OnOk, codes};
ghost use Rattle.cell_types.specs.Builtin.{gate_cells};

use crate::builtin_parts::cell;
use crate::{Cell, CellKind, GateCell};
use sdcv_base::{Name, Seq};
use std::alloc::{AllocError, Global};

/// A clock gate with one enable.
pub(crate) fn push_gates(alloc: Global, cells: &mut Seq<Cell>) -> Result<(), AllocError>
    ensures { OnOk result (cells.new ≡ cells.old ++ gate_cells) }
{
    let gate = GateCell {
        clock: Name::new(alloc, "CK".as_bytes())?,
        enables: enable_pin(alloc)?,
        out: Name::new(alloc, "GCK".as_bytes())?,
    };
    let inputs = enable_pin(alloc)?;
    cells.push(cell(alloc, "ICG", inputs, CellKind::Gate(gate))?)?;
    Ok(())
}

/// The enable EN.
fn enable_pin(alloc: Global) -> Result<Seq<Name>, AllocError>
    ensures { IfOk result (λ names. names ≡ codes "EN" ∷ []) }
{
    let name = Name::new(alloc, "EN".as_bytes())?;
    Seq::one(alloc, name)
}
