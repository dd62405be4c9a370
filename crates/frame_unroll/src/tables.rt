//! A design with all that the keys of its queries need of it alone.
ghost use Rattle.std.specs.Prelude.{◌≡◌, ◌<◌, Some, length, slice_get, IfOk};
ghost use Rattle.net_model.specs.Netlist.{IsSound};
ghost use Rattle.net_model.specs.declared.netlist.Gate.{Gate};
ghost use Rattle.net_model.specs.declared.netlist.Reg.{Reg};
ghost use Rattle.net_paths.specs.Readers.{AreReaders};
ghost use Rattle.frame_unroll.specs.Drivers.{AreDrivers};
ghost use Rattle.frame_unroll.specs.Found.{AreNetGates};
ghost use Rattle.frame_unroll.specs.Counted.{gate_marks, reg_marks};

use crate::counted_places::CountedPlaces;
use crate::drivers::{Driver, net_drivers};
use crate::gate_tables::net_gates;
use net_model::Design;
use net_paths::Readers;
use query_model::Coding;
use sdcv_base::Seq;
use std::alloc::{AllocError, Global};
use std::marker::Model;

/// A design and the tables that depend on it and on the coding alone, made once and lent to each query: what drives each net,
/// which gate does, which pins read it, and which places of each gate and register count.
///
/// Contracts see the design and the coding.
#[derive(Drop)]
pub struct Tables<'a> {
    design: &'a Design,
    coding: Coding,
    drivers: Seq<Driver>,
    gates: Seq<Option<usize>>,
    readers: Readers,
    counted: CountedPlaces,
}

impl<'a> Model for Tables<'a> {
    ghost use Rattle.std.specs.Prelude.{refl};
    ghost use Rattle.std.specs.Coded.{code_by, coded×};
    ghost use Rattle.net_model.specs.declared.netlist.Design.{Design};
    ghost use Rattle.net_model.specs.contracts.netlist.Design as design_row;
    ghost use Rattle.query_model.specs.declared.keys.Coding.{Coding};
    ghost use Rattle.query_model.specs.contracts.keys.Coding as coding_row;
    ghost use Rattle.frame_unroll.specs.Tabled.{CodedDesign, AreTables};

    ghost Value = { CodedDesign };

    ghost coded = { code_by (Design × Coding) (coded× design_row.the_row.coded coding_row.the_row.coded) (λ t. (t.design, t.coding))
        (λ p. record { design = p.0; coding = p.1 }) (λ _. refl) };

    ghost view = { λ t. record { design = t.design.now; coding = t.coding } };

    ghost invariant = { λ t. AreTables t.design.now t.coding t.drivers t.gates t.readers.rows.items t.counted };
}

impl<'a> Tables<'a> {
    /// The design with its tables. It takes the time that the design takes.
    pub fn of(alloc: Global, design: &'a Design, coding: Coding) -> Result<Tables<'a>, AllocError>
        requires sound { IsSound design.now }
        ensures design { IfOk result (λ t. t.design ≡ design.now) }
        ensures coding { IfOk result (λ t. t.coding ≡ coding) }
    {
        Ok(Tables {
            design,
            coding,
            drivers: net_drivers(alloc, design)?,
            gates: net_gates(alloc, design)?,
            readers: Readers::of(alloc, design)?,
            counted: CountedPlaces::of(alloc, design, coding)?,
        })
    }

    /// The design itself.
    pub fn design(&self) -> &'a Design
        ensures { result.now ≡ self.now.design }
    {
        self.design
    }

    /// What drives each net.
    pub fn drivers(&self) -> &Seq<Driver>
        ensures { AreDrivers self.now.design result.now }
    {
        &self.drivers
    }

    /// Which gate drives each net.
    pub fn gates(&self) -> &Seq<Option<usize>>
        ensures { AreNetGates self.now.design result.now }
    {
        &self.gates
    }

    /// Which pins read each net.
    pub fn readers(&self) -> &Readers
        ensures { AreReaders self.now.design result.now.rows.items }
    {
        &self.readers
    }

    /// Which places of a gate count.
    pub(crate) fn gate_places(&self, gate: usize) -> &Seq<bool>
        requires { gate < length self.now.design.gates }
        ensures { (g : Gate) → slice_get self.now.design.gates gate ≡ Some g → result.now ≡ gate_marks self.now.coding g }
    {
        self.counted.gates.item(gate)
    }

    /// Which places of a register's capture count.
    pub(crate) fn reg_places(&self, reg: usize) -> &Seq<bool>
        requires { reg < length self.now.design.regs }
        ensures { (r : Reg) → slice_get self.now.design.regs reg ≡ Some r → result.now ≡ reg_marks self.now.coding r }
    {
        self.counted.regs.item(reg)
    }
}
