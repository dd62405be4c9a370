//! Clauses whose literals stand in one table.
ghost use Rattle.std.specs.Prelude.{◌≡◌, ◌<◌, ◌≤◌, ◌^◌, [], ◌∷◌, ◌++◌, length, slice_index, slice_index_or, IfOk, OnOk, OnErr};
ghost use Rattle.proof_log.specs.Clauses.{IsKeptOf};

use crate::clauses::normalize;
use crate::literals::Lit;
use std::alloc::{AllocError, Global};
use std::marker::Model;

/// Clauses, one after another in one table of literals, so that a clause has no block of memory of
/// its own. Contracts see the list of the clauses.
///
/// What always holds (`AreEnds`): each clause ends no sooner than the one before it, and the last
/// ends where the table does. A clause begins where the one before it ends.
pub struct ClauseTable {
    lits: Vec<Lit>,
    ends: Vec<u32>,
}

impl Model for ClauseTable {
    ghost use Rattle.std.specs.Prelude.{List, ℕ, length};
    ghost use Rattle.proof_log.specs.Tables.{clauses_of, AreEnds};

    ghost Value = { List (List ℕ) };

    ghost view = { λ t. clauses_of t.lits.items 0 t.ends.items };

    ghost invariant = { λ t. AreEnds 0 t.ends.items (length t.lits.items) };
}

// A table is let go by a call of its own: whoever owns one proves nothing of how its literals are kept.
impl Drop for ClauseTable {
    fn drop(self) {
        let ClauseTable {
            lits: _lits,
            ends: _ends,
        } = self;
    }
}

impl ClauseTable {
    /// No clause. It takes no memory.
    pub fn new(alloc: Global) -> ClauseTable
        ensures { result ≡ [] }
    {
        ClauseTable {
            lits: Vec::new(alloc),
            ends: Vec::new(alloc),
        }
    }

    /// The same clauses.
    pub fn copy(&self, alloc: Global) -> Result<ClauseTable, AllocError>
        ensures { IfOk result (λ t. t ≡ self.now) }
    {
        let lits = Vec::from_slice(alloc, &self.lits)?;
        let ends = Vec::from_slice(alloc, &self.ends)?;
        Ok(ClauseTable { lits, ends })
    }

    pub fn len(&self) -> usize
        ensures value { result ≡ length self.now }
        ensures few { length self.now < 2 ^ 63 }
    {
        self.ends.len()
    }

    /// The literals of the clause at that place.
    pub fn clause(&self, place: usize) -> &[Lit]
        requires { place < length self.now }
        ensures { result.now ≡ slice_index_or self.now place [] }
    {
        let start = start_of(&self.ends, place);
        let end = self.ends[place] as usize;
        &self.lits[start..end]
    }

    /// One more clause. Where the table would have 2^32 literals, no memory holds it.
    pub fn push(&mut self, lits: &[Lit]) -> Result<(), AllocError>
        ensures ok { OnOk result (self.new ≡ self.old ++ lits.now ∷ []) }
        ensures err { OnErr result (self.new ≡ self.old) }
    {
        let end = self.lits.len() + lits.len();
        if end > 0xffff_ffff {
            return Err(AllocError);
        }
        self.ends.reserve(1)?;
        self.lits.extend_from_slice(lits)?;
        self.ends.push_reserved(end as u32);
        Ok(())
    }

    /// One more clause in normal form: the literals by their variables, each once. Where two of them
    /// are complements it says nothing, and is left out. The table has no more literals than `push`
    /// allows, also before those that stand twice are left out.
    pub fn push_normal(&mut self, lits: &[Lit]) -> Result<(), AllocError>
        ensures ok { OnOk result (IsKeptOf lits.now self.old self.new) }
        ensures err { OnErr result (self.new ≡ self.old) }
    {
        let start = self.lits.len();
        if start + lits.len() > 0xffff_ffff {
            return Err(AllocError);
        }
        self.ends.reserve(1)?;
        self.lits.extend_from_slice(lits)?;
        if !normalize(&mut self.lits, start) {
            return Ok(());
        }
        self.ends.push_reserved(self.lits.len() as u32);
        Ok(())
    }
}

/// Where the clause at that place begins.
fn start_of(ends: &[u32], place: usize) -> usize
    requires { place ≤ length ends.now }
    ensures { result ≡ slice_index (0 ∷ ends.now) place }
{
    if place == 0 {
        0
    } else {
        ends[place - 1] as usize
    }
}
