//! Registers by name.
ghost use Rattle.std.specs.Prelude.{◌++◌, ◌∷◌, [], List, OnOk, IfOk};
ghost use Rattle.linked_types.specs.declared.names.CellName.{CellName as Cell};
ghost use Rattle.assist_text.specs.Registers.{IsTable, IsFound};

use indexmap::IndexMap;
use linked_types::CellName;
use sdcv_base::Name;
use std::alloc::{AllocError, Global};
use std::marker::Model;

/// The registers of cells by their full names. A look-up takes the time of one hash.
#[derive(Drop)]
pub(crate) struct RegTable {
    regs: IndexMap<Name, usize>,
}

impl Model for RegTable {
    ghost use Rattle.std.specs.Prelude.{List, ℕ};

    ghost Value = { List (List ℕ × ℕ) };

    ghost view = { λ t. t.regs.entries };
}

impl RegTable {
    /// The registers of these cells.
    pub(crate) fn new(alloc: Global, cells: &[CellName]) -> Result<RegTable, AllocError>
        ensures { IfOk result (IsTable cells.now) }
    {
        let mut table = RegTable {
            regs: IndexMap::new(alloc),
        };
        for cell in cells {
            table.add(alloc, cell)?;
        }
        Ok(table)
    }

    /// Adds the register of a cell, where it has one.
    fn add(&mut self, alloc: Global, cell: &CellName) -> Result<(), AllocError>
        ensures { (cells : List Cell) → IsTable cells self.old → OnOk result (IsTable (cells ++ cell.now ∷ []) self.new) }
    {
        if let Some(reg) = cell.reg {
            self.regs.insert(cell.name.copy(alloc)?, reg)?;
        }
        Ok(())
    }

    /// The register of the cell with this name.
    pub(crate) fn reg(&self, name: &Name) -> Option<usize>
        ensures { (cells : List Cell) → IsTable cells self.now → IsFound cells name.now result }
    {
        self.regs.get(name).copied()
    }
}
