//! The cubes of functions, made once for all functions that are equal.
ghost use Rattle.std.specs.Prelude.{◌≡◌, ◌<◌, ◌≤◌, [], Some, length, slice_get, IfOk, OnOk};
ghost use Rattle.net_model.specs.Form.{value, IsOver};
ghost use Rattle.cnf_encode.specs.CellLists.{IsCellAt, IsGrown};

use cell_cubes::rows;
use indexmap::IndexMap;
use net_model::Func;
use prime_cubes::{Cell, cell_of};
use query_model::Coding;
use std::alloc::{AllocError, Global};
use std::marker::Model;

/// The cubes that a coding takes of functions, by their values in all rows. A look-up takes the time of these rows.
///
/// Contracts see the cubes in the order in which they were made.
#[derive(Drop)]
pub struct CellList {
    coding: Coding,
    cells: IndexMap<Vec<bool>, Cell>,
}

impl Model for CellList {
    ghost use Rattle.std.specs.Prelude.{All};
    ghost use Rattle.indexmap.specs.IndexMap.{values};
    ghost use Rattle.cnf_encode.specs.CellLists.{CellList as CellListRecord, AreCubesBy};

    ghost Value = { CellListRecord };

    ghost view = { λ l. record { coding = l.coding; cells = values l.cells } };

    ghost invariant = { λ l. All (λ e. AreCubesBy l.coding e.0.items e.1) l.cells.entries };
}

impl CellList {
    /// No cubes yet.
    pub fn new(alloc: Global, coding: Coding) -> CellList
        ensures coding { result.coding ≡ coding }
        ensures none { result.cells ≡ [] }
    {
        CellList {
            coding,
            cells: IndexMap::new(alloc),
        }
    }

    /// The place of the cubes of a function. They are made where no equal function has been asked for.
    pub fn place(&mut self, alloc: Global, func: &Func, places: usize) -> Result<usize, AllocError>
        requires few { places ≤ 7 }
        requires over { IsOver places func.now }
        ensures is { IfOk result (λ place. IsCellAt self.new place (value func.now) places) }
        ensures grown { OnOk result (IsGrown self.old self.new) }
    {
        let values = rows(alloc, func, places)?;
        if let Some(place) = self.cells.get_index_of(&values) {
            return Ok(place);
        }
        let place = self.cells.len();
        let cell = cell_of(alloc, func, places, self.coding)?;
        self.cells.insert(values, cell)?;
        Ok(place)
    }

    /// The cubes at a place.
    pub fn cell(&self, place: usize) -> &Cell
        requires { place < length self.now.cells }
        ensures { slice_get self.now.cells place ≡ Some result.now }
    {
        self.cells.get_index(place).unwrap().1
    }
}
