//! A design with all that queries need of it alone.
ghost use Rattle.std.specs.Prelude.{◌≡◌, IfOk};
ghost use Rattle.net_model.specs.Netlist.{IsSound};
ghost use Rattle.frame_unroll.specs.Drivers.{AreDrivers};
ghost use Rattle.cnf_encode.specs.Cells.{AreCells};
ghost use Rattle.cnf_encode.specs.Prepared.{ArePointTables};

use crate::cells::Cells;
use crate::point_tables::PointTables;
use frame_unroll::{Driver, Tables};
use net_model::Design;
use query_model::Coding;
use sdcv_base::Seq;
use std::alloc::{AllocError, Global};
use std::marker::Model;

/// A design and the tables that depend on it and on the coding alone, made once and lent to each query: those of its keys, where
/// each point stands, and the cubes of the functions of gates and registers.
///
/// Contracts see the design and the coding.
#[derive(Drop)]
pub struct Prepared<'a> {
    tables: Tables<'a>,
    points: PointTables,
    cells: Cells,
}

impl<'a> Model for Prepared<'a> {
    ghost use Rattle.std.specs.Prelude.{refl};
    ghost use Rattle.std.specs.Coded.{code_by, coded×};
    ghost use Rattle.net_model.specs.declared.netlist.Design.{Design};
    ghost use Rattle.net_model.specs.contracts.netlist.Design as design_row;
    ghost use Rattle.query_model.specs.declared.keys.Coding.{Coding};
    ghost use Rattle.query_model.specs.contracts.keys.Coding as coding_row;
    ghost use Rattle.frame_unroll.specs.Tabled.{CodedDesign};
    ghost use Rattle.cnf_encode.specs.Prepared.{IsPrepared};

    ghost Value = { CodedDesign };

    ghost coded = { code_by (Design × Coding) (coded× design_row.the_row.coded coding_row.the_row.coded) (λ t. (t.design, t.coding))
        (λ p. record { design = p.0; coding = p.1 }) (λ _. refl) };

    ghost view = { λ p. p.tables };

    ghost invariant = { λ p. IsPrepared p.tables p.points p.cells };
}

impl<'a> Prepared<'a> {
    /// The design with its tables. It takes the time that the design takes.
    pub fn of(alloc: Global, design: &'a Design, coding: Coding) -> Result<Prepared<'a>, AllocError>
        requires sound { IsSound design.now }
        ensures design { IfOk result (λ p. p.design ≡ design.now) }
        ensures coding { IfOk result (λ p. p.coding ≡ coding) }
    {
        Ok(Prepared {
            tables: Tables::of(alloc, design, coding)?,
            points: PointTables::of(alloc, design)?,
            cells: Cells::of(alloc, design, coding)?,
        })
    }

    /// The design itself.
    pub fn bare(&self) -> &'a Design
        ensures { result.now ≡ self.now.design }
    {
        self.tables.design()
    }

    /// What drives each net.
    pub(crate) fn drivers(&self) -> &Seq<Driver>
        ensures { AreDrivers self.now.design result.now }
    {
        self.tables.drivers()
    }

    /// The tables for the keys of its queries.
    pub(crate) fn tables(&self) -> &Tables<'a>
        ensures { result.now ≡ self.now }
    {
        &self.tables
    }

    /// Where each point stands.
    pub(crate) fn points(&self) -> &PointTables
        ensures { ArePointTables self.now.design result.now }
    {
        &self.points
    }

    /// The cubes of the functions of its gates and registers.
    pub(crate) fn cells(&self) -> &Cells
        ensures cells { AreCells self.now.design result.now }
        ensures coding { result.now.list.coding ≡ self.now.coding }
    {
        &self.cells
    }
}
