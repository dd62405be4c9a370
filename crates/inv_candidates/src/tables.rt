//! Clauses of any length that are listed, each once.
ghost use Rattle.std.specs.Prelude.{◌≡◌, [], ◌∷◌, IfOk, OnOk};
ghost use Rattle.inv_candidates.specs.Listing.{AddsNew, clause_of_row};

use indexmap::IndexSet;
use net_model::{InvClause, StateLit};
use sdcv_base::Seq;
use std::alloc::{AllocError, Global};
use std::marker::Model;

/// That a register has a value.
#[derive(Debug, Clone, Copy, PartialEq, Eq, Hash)]
pub(crate) struct RowLit {
    pub reg: usize,
    pub value: bool,
}

/// Clauses of any length, each once, in the order in which they were added. A look-up takes the time of one hash of its literals.
#[derive(Drop)]
pub(crate) struct ClauseTable {
    rows: IndexSet<Vec<RowLit>>,
}

impl Model for ClauseTable {
    ghost use Rattle.std.specs.Prelude.{List, map};
    ghost use Rattle.net_model.specs.declared.invariants.InvClause.{InvClause as InvClauseRecord};
    ghost use Rattle.inv_candidates.specs.Listing.{clause_of_row as clause_of_key};

    ghost Value = { List InvClauseRecord };

    ghost view = { λ t. map clause_of_key t.rows.keys };
}

impl ClauseTable {
    pub fn new(alloc: Global) -> ClauseTable
        ensures { result ≡ [] }
    {
        ClauseTable {
            rows: IndexSet::new(alloc),
        }
    }

    /// Adds clauses in turn, each where it does not stand there yet.
    pub fn add_all(&mut self, alloc: Global, clauses: &[InvClause]) -> Result<(), AllocError>
        ensures { OnOk result (AddsNew self.old clauses.now self.new) }
    {
        for k in 0..clauses.len() {
            self.add(row_of(alloc, &clauses[k])?)?;
        }
        Ok(())
    }

    /// Adds the clause of a row where it does not stand there yet.
    fn add(&mut self, row: Vec<RowLit>) -> Result<(), AllocError>
        ensures { OnOk result (AddsNew self.old (clause_of_row row ∷ []) self.new) }
    {
        self.rows.insert(row)?;
        Ok(())
    }

    /// The clauses.
    pub fn clauses(&self, alloc: Global) -> Result<Seq<InvClause>, AllocError>
        ensures { IfOk result (λ clauses. clauses ≡ self.now) }
    {
        let rows = self.rows.as_slice();
        let mut clauses = Seq::new(alloc);
        for k in 0..rows.len() {
            clauses.push(clause_of_row(alloc, &rows[k])?)?;
        }
        Ok(clauses)
    }
}

/// The literals of a clause.
fn row_of(alloc: Global, clause: &InvClause) -> Result<Vec<RowLit>, AllocError>
    ensures { IfOk result (λ row. clause_of_row row ≡ clause.now) }
{
    let mut row = Vec::new(alloc);
    for k in 0..clause.lits.len() {
        let lit = clause.lits.at(k);
        row.push(RowLit {
            reg: lit.reg,
            value: lit.value,
        })?;
    }
    Ok(row)
}

/// The clause of these literals.
fn clause_of_row(alloc: Global, row: &Vec<RowLit>) -> Result<InvClause, AllocError>
    ensures { IfOk result (λ clause. clause ≡ clause_of_row row.now) }
{
    let items = row.as_slice();
    let mut lits = Seq::new(alloc);
    for k in 0..items.len() {
        let lit = items[k];
        lits.push(StateLit {
            reg: lit.reg,
            value: lit.value,
        })?;
    }
    Ok(InvClause { lits })
}
