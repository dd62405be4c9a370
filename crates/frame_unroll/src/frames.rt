//! The needed keys of a query, numbered.
ghost use Rattle.std.specs.Prelude.{◌≡◌, ◌<◌, ◌≤◌, ◌^◌, ℕ, All, IfOk, Some, length};
ghost use Rattle.net_model.specs.Netlist.{IsSound};
ghost use Rattle.net_model.specs.Fits.{Fits};
ghost use Rattle.net_model.specs.Queries.{claim_query, clause_query};
ghost use Rattle.net_model.specs.Fits.{NamesRegs};
ghost use Rattle.std.specs.List.{IsDistinct};
ghost use Rattle.query_model.specs.Formula.{same_key};
ghost use Rattle.query_model.specs.declared.keys.Key.{Key};
ghost use Rattle.frame_unroll.specs.Reading.{IsSubject};
ghost use Rattle.frame_unroll.specs.Found.{AreSmall, AreAscending};
ghost use Rattle.frame_unroll.specs.Framed.{AreFramesOf, AreNeededOfClaim, AreNeededOfClause, AtPlace, AreWithin, key_of, number_if_any};

use crate::asked::{claim_asked, clause_asked};
use crate::found_keys::add_clauses;
use crate::key_sets::KeySet;
use crate::reached_keys::{reach_of_claim, reach_of_clause};
use crate::spans::{claim_span, clause_span};
use crate::subjects::Subject;
use crate::tables::Tables;
use net_model::{Claim, Design, InvClause, Phase};
use query_model::{Key, KeyLit};
use sdcv_base::Seq;
use std::alloc::{AllocError, Global};
use std::marker::Model;

/// The keys that a query needs, numbered from 1 in ascending order.
///
/// Contracts see the list of these keys in the order of their numbers. What always holds: there are fewer than 2^31.
#[derive(Drop)]
pub struct Frames {
    keys: KeySet,
}

impl Model for Frames {
    ghost use Rattle.std.specs.Prelude.{List, length, ◌<◌, ◌^◌};
    ghost use Rattle.query_model.specs.declared.keys.Key.{Key};

    ghost Value = { List Key };

    ghost view = { λ f. f.keys };

    ghost invariant = { λ f. length f.keys < 2 ^ 31 };
}

/// How many points a cycle of a query may have: nets, register bits, and its further points.
fn point_count(design: &Design) -> usize
    requires { IsSound design.now }
    ensures { result ≤ 220050 }
{
    design.nets + design.regs.len() + 50
}

impl Frames {
    /// The keys that are needed where it is asked about a claim, of which `asked` is what is asked of the keys.
    ///
    /// It takes the time and memory of the needed keys, each with its page of 128 numbers at most, and beside them 3 bytes for each
    /// 8 points of each cycle. No other key that a query could have is looked at.
    pub fn by_claim(
        alloc: Global,
        subject: &Subject,
        cycles: usize,
        asked: &Seq<Seq<KeyLit>>,
    ) -> Result<Frames, AllocError>
        requires subject { IsSubject subject.now }
        requires cycles { cycles ≤ 144 }
        requires within { AreWithin subject.now.design.now cycles asked.now }
        ensures { IfOk result (AreNeededOfClaim subject.now.tables.now.coding subject.now.design.now subject.now.claim.now cycles subject.now.moved asked.now) }
    {
        let mut found = KeySet::new(alloc, point_count(subject.design))?;
        add_clauses(asked, &mut found)?;
        reach_of_claim(alloc, subject, cycles, &mut found)?;
        Frames::in_order(alloc, found)
    }

    /// The same where it is asked about a clause over register bits.
    pub fn by_clause(
        alloc: Global,
        tables: &Tables,
        cycles: usize,
        asked: &Seq<Seq<KeyLit>>,
    ) -> Result<Frames, AllocError>
        requires sound { IsSound tables.now.design }
        requires cycles { cycles ≤ 144 }
        requires within { AreWithin tables.now.design cycles asked.now }
        ensures { IfOk result (AreNeededOfClause tables.now.coding tables.now.design cycles asked.now) }
    {
        let mut found = KeySet::new(alloc, point_count(tables.design()))?;
        add_clauses(asked, &mut found)?;
        reach_of_clause(alloc, tables, cycles, &mut found)?;
        Frames::in_order(alloc, found)
    }

    /// The needed keys of the query whether a claim is violated at a depth.
    pub fn of_claim(
        alloc: Global,
        tables: &Tables,
        claim: &Claim,
        phase: Phase,
        depth: usize,
        inv: &[InvClause],
    ) -> Result<Frames, AllocError>
        requires sound { IsSound tables.now.design }
        requires fits { Fits tables.now.design claim.now }
        requires names { All (NamesRegs tables.now.design) inv.now }
        requires few { depth ≤ 64 }
        ensures { IfOk result (AreFramesOf tables.now.coding (claim_query tables.now.design claim.now phase depth inv.now)) }
    {
        let design = tables.design();
        let subject = Subject::of(alloc, tables, claim)?;
        let asked = claim_asked(alloc, design, claim, phase, depth, inv)?;
        let span = claim_span(design, claim, phase, depth);
        Frames::by_claim(alloc, &subject, span.cycles, &asked)
    }

    /// The needed keys of the query whether the invariant at a place fails at a depth.
    pub fn of_invariant(
        alloc: Global,
        tables: &Tables,
        inv: &[InvClause],
        place: usize,
        phase: Phase,
        depth: usize,
    ) -> Result<Frames, AllocError>
        requires sound { IsSound tables.now.design }
        requires place { place < length inv.now }
        requires names { All (NamesRegs tables.now.design) inv.now }
        requires few { depth ≤ 64 }
        ensures { IfOk result (λ keys. AtPlace inv.now place (λ clause.
            AreFramesOf tables.now.coding (clause_query tables.now.design inv.now clause phase depth) keys)) }
    {
        let design = tables.design();
        let clause = &inv[place];
        let asked = clause_asked(alloc, design, inv, clause, phase, depth)?;
        let span = clause_span(design, phase, depth);
        Frames::by_clause(alloc, tables, span.cycles, &asked)
    }

    fn in_order(alloc: Global, found: KeySet) -> Result<Frames, AllocError>
        requires { AreSmall found }
        ensures { IfOk result (AreAscending found) }
    {
        let keys = found.in_order(alloc)?;
        Ok(Frames { keys })
    }

    /// How many variables there are.
    pub fn vars(&self) -> u32
        ensures count { result ≡ length self.now }
        ensures few { result < 2 ^ 31 }
        ensures distinct { IsDistinct same_key self.now }
    {
        self.keys.len() as u32
    }

    /// The number of a key, where the query needs it.
    pub fn number(&self, key: &Key) -> Option<u32>
        ensures value { result ≡ number_if_any self.now key.now }
        ensures inverse { (n : ℕ) → result ≡ Some n → key_of self.now n ≡ Some key.now }
    {
        self.keys.number(*key)
    }

    /// The key of a variable, where there is one of that number.
    pub fn key(&self, var: u32) -> Option<Key>
        ensures value { result ≡ key_of self.now var }
        ensures inverse { (k : Key) → result ≡ Some k → number_if_any self.now k ≡ Some var }
    {
        if var == 0 || var > self.vars() {
            return None;
        }
        Some(self.keys.key(var as usize - 1))
    }
}
