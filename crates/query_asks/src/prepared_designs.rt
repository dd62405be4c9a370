//! A design prepared for the queries that are asked here.
ghost use Rattle.std.specs.Prelude.{◌≡◌, IfOk};
ghost use Rattle.net_model.specs.Netlist.{IsSound};
ghost use Rattle.verdicts.specs.Logs as logs;

use net_model::Design;
use std::alloc::{AllocError, Global};
use std::marker::Model;
use verdicts::own_coding;

/// A design and the tables that depend on it alone, made once and lent to each query, for the one coding in which queries are
/// asked here.
///
/// Contracts see the design.
#[derive(Drop)]
pub struct Prepared<'a> {
    coded: cnf_encode::Prepared<'a>,
}

impl<'a> Model for Prepared<'a> {
    ghost use Rattle.std.specs.Prelude.{◌≡◌};
    ghost use Rattle.net_model.specs.declared.netlist.Design.{Design};
    ghost use Rattle.net_model.specs.contracts.netlist.Design as row;
    ghost use Rattle.verdicts.specs.Logs as logs;

    ghost Value = { Design };

    ghost coded = { row.the_row.coded };

    ghost view = { λ p. p.coded.design };

    ghost invariant = { λ p. p.coded.coding ≡ logs.own_coding };
}

impl<'a> Prepared<'a> {
    /// The design with its tables. It takes the time that the design takes.
    pub fn of(alloc: Global, design: &'a Design) -> Result<Prepared<'a>, AllocError>
        requires sound { IsSound design.now }
        ensures { IfOk result (λ p. p ≡ design.now) }
    {
        Ok(Prepared {
            coded: cnf_encode::Prepared::of(alloc, design, own_coding())?,
        })
    }

    /// The design itself.
    pub fn bare(&self) -> &'a Design
        ensures { result.now ≡ self.now }
    {
        self.coded.bare()
    }

    /// The design with its tables, and their coding.
    pub(crate) fn coded(&self) -> &cnf_encode::Prepared<'a>
        ensures { result.now ≡ record { design = self.now; coding = logs.own_coding } }
    {
        &self.coded
    }
}
