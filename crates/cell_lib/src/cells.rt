//! What a cell is.
ghost use Rattle.std.specs.Prelude.{◌≡◌, IfOk, map};
ghost use Rattle.cell_lib.specs.Cells as spec;

use crate::Cell;
use crate::pins::{Role, names_of};
use crate::shapes::{Shape, shape_of};
use lib_words::CellGroup;
use sdcv_base::Seq;
use std::alloc::{AllocError, Global};

/// The cell that a group is.
#[tactic(auto, unfolding(crate::specs::Cells::cell_of))]
fn cell_of(alloc: Global, group: &CellGroup) -> Result<Cell, AllocError>
    ensures { IfOk result (λ cell. cell ≡ spec.cell_of group.now) }
{
    let name = group.name.copy(alloc)?;
    let power = names_of(alloc, group.parts.as_slice(), Role::Power)?;
    let Shape { inputs, kind } = shape_of(alloc, group)?;
    Ok(Cell {
        name,
        inputs,
        power,
        kind,
    })
}

/// The cells that these groups are.
pub fn cells_of(alloc: Global, groups: &[CellGroup]) -> Result<Seq<Cell>, AllocError>
    ensures { IfOk result (λ cells. cells ≡ map spec.cell_of groups.now) }
{
    let mut found = Seq::new(alloc);
    for group in groups {
        let cell = cell_of(alloc, group)?;
        found.push(cell)?;
    }
    Ok(found)
}
