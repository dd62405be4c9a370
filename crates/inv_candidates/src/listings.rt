//! Clauses that are listed, each once.
ghost use Rattle.std.specs.Prelude.{◌≡◌, ◌≢◌, ◌+◌, ◌<◌, [], ◌∷◌, flat_map, drop, take, length, slice_index, OnOk, IfOk};
ghost use Rattle.inv_candidates.specs.Near.{Differ};
ghost use Rattle.inv_candidates.specs.Clauses.{single_clauses, pair_clauses, all_pairs, group_clauses};
ghost use Rattle.inv_candidates.specs.Listing.{AddsNew, clause_of};

use crate::shorts::Short;
use indexmap::IndexSet;
use net_model::InvClause;
use sdcv_base::Seq;
use std::alloc::{AllocError, Global};
use std::marker::Model;

/// Clauses of one or two literals, each once, in the order in which they were added. A look-up takes the time of one hash.
#[derive(Drop)]
pub(crate) struct Listing {
    shorts: IndexSet<Short>,
}

impl Model for Listing {
    ghost use Rattle.std.specs.Prelude.{List, map};
    ghost use Rattle.net_model.specs.declared.invariants.InvClause.{InvClause as InvClauseRecord};
    ghost use Rattle.inv_candidates.specs.Listing.{clause_of as clause_of_short};

    ghost Value = { List InvClauseRecord };

    ghost view = { λ l. map clause_of_short l.shorts.keys };
}

impl Listing {
    pub fn new(alloc: Global) -> Listing
        ensures { result ≡ [] }
    {
        Listing {
            shorts: IndexSet::new(alloc),
        }
    }

    /// How many clauses there are.
    pub fn len(&self) -> usize
        ensures { result ≡ length self.now }
    {
        self.shorts.len()
    }

    /// The first clauses, at most so many.
    pub fn first(&self, alloc: Global, most: usize) -> Result<Seq<InvClause>, AllocError>
        ensures { IfOk result (λ clauses. clauses ≡ take most self.now) }
    {
        let mut clauses = Seq::new(alloc);
        let count = most.min(self.shorts.len());
        for k in 0..count {
            let short = self.shorts.as_slice()[k];
            clauses.push(short.clause(alloc)?)?;
        }
        Ok(clauses)
    }

    /// Adds the clauses of a group: those of each register, and then those of each pair.
    pub fn add_group(&mut self, group: &Seq<usize>) -> Result<(), AllocError>
        requires { Differ group.now }
        ensures { OnOk result (AddsNew self.old (group_clauses group.now) self.new) }
    {
        self.add_singles(group)?;
        self.add_pairs(group)?;
        Ok(())
    }

    fn add_singles(&mut self, group: &Seq<usize>) -> Result<(), AllocError>
        ensures { OnOk result (AddsNew self.old (flat_map single_clauses group.now) self.new) }
    {
        for k in 0..group.len() {
            self.add_single(group.at(k))?;
        }
        Ok(())
    }

    fn add_single(&mut self, reg: usize) -> Result<(), AllocError>
        ensures { OnOk result (AddsNew self.old (single_clauses reg) self.new) }
    {
        self.add(Short::one(reg, false))?;
        self.add(Short::one(reg, true))?;
        Ok(())
    }

    fn add_pairs(&mut self, group: &Seq<usize>) -> Result<(), AllocError>
        requires { Differ group.now }
        ensures { OnOk result (AddsNew self.old (all_pairs group.now) self.new) }
    {
        for k in 0..group.len() {
            self.add_pairs_at(group, k)?;
        }
        Ok(())
    }

    /// Adds the clauses of the pairs of the register at a place and each later one.
    fn add_pairs_at(&mut self, group: &Seq<usize>, place: usize) -> Result<(), AllocError>
        requires differ { Differ group.now }
        requires place { place < length group.now }
        ensures { OnOk result (AddsNew self.old (flat_map (pair_clauses (slice_index group.now place)) (drop (place + 1) group.now)) self.new) }
    {
        let reg = group.at(place);
        let count = group.len();
        for k in place + 1..count {
            self.add_pair(reg, group.at(k))?;
        }
        Ok(())
    }

    fn add_pair(&mut self, reg: usize, other: usize) -> Result<(), AllocError>
        requires { reg ≢ other }
        ensures { OnOk result (AddsNew self.old (pair_clauses reg other) self.new) }
    {
        self.add(Short::two(reg, false, other, false))?;
        self.add(Short::two(reg, false, other, true))?;
        self.add(Short::two(reg, true, other, false))?;
        self.add(Short::two(reg, true, other, true))?;
        Ok(())
    }

    /// Adds a clause where it does not stand there yet.
    fn add(&mut self, short: Short) -> Result<(), AllocError>
        ensures { OnOk result (AddsNew self.old (clause_of short ∷ []) self.new) }
    {
        self.shorts.insert(short)?;
        Ok(())
    }
}
