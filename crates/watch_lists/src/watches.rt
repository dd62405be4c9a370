//! Watches, each on one literal or on none.
ghost use Rattle.std.specs.Prelude.{◌≡◌, ◌+◌, ◌<◌, ℕ, List, [], ◌∷◌, ◌++◌, length, set, slice_index, IfOk, OnErr, OnOk, MatchOption, true, false};
ghost use Rattle.proof_log.specs.Clauses.{is_set};
ghost use Rattle.watch_lists.specs.Watchings.{Watching};

use crate::lists::Lists;
use std::alloc::{AllocError, Global};
use std::marker::Model;

/// Watches by number, each on a literal or on none (0), and those that wait to be looked at.
///
/// What always holds (`IsWatching`):
/// - long, below: there is an entry for each watch, and its literal is one that has a list.
/// - listed: a watch on a literal stands in the literal's list, or it waits.
/// - own: who stands in a literal's list is on that literal.
/// - waits: who waits is on a literal.
///
/// No literal has the number 0: the list of that number holds those that wait.
#[derive(Drop)]
pub struct Watches {
    lists: Lists,
    literals: Vec<u32>,
}

impl Model for Watches {
    ghost use Rattle.std.specs.Prelude.{length};
    ghost use Rattle.watch_lists.specs.Chains.{list_at};
    ghost use Rattle.watch_lists.specs.Watchings.{Watching, IsWatching};

    ghost Value = { Watching };

    ghost view = { λ w. record { limit = length w.lists.lists; literals = w.literals.items; waiting = list_at w.lists.lists 0 } };

    ghost invariant = { λ w. IsWatching w.lists.lists w.lists.nodes w.literals.items };
}

impl Watches {
    /// No watch, and lists for the literals whose numbers are below the limit.
    pub fn new(alloc: Global, limit: usize) -> Result<Watches, AllocError>
        requires { 0 < limit }
        ensures { IfOk result (λ w. w ≡ record { limit = limit; literals = []; waiting = [] }) }
    {
        let lists = Lists::new(alloc, limit)?;
        Ok(Watches {
            lists,
            literals: Vec::new(alloc),
        })
    }

    /// How many watches there are.
    pub fn len(&self) -> usize
        ensures { result ≡ length self.now.literals }
    {
        self.literals.len()
    }

    /// One more watch, on no literal.
    pub fn add(&mut self) -> Result<(), AllocError>
        ensures ok { OnOk result (self.new ≡ record self.old { literals = self.old.literals ++ 0 ∷ [] }) }
        ensures err { OnErr result (self.new ≡ self.old) }
    {
        self.literals.reserve(1)?;
        self.lists.add_node()?;
        self.literals.push_reserved(0);
        Ok(())
    }

    /// The number of the literal that the watch is on, 0 for none.
    pub fn literal(&self, watch: usize) -> u32
        requires { watch < length self.now.literals }
        ensures value { result ≡ slice_index self.now.literals watch }
        ensures below { result < self.now.limit }
    {
        self.literals[watch]
    }

    /// Puts a watch that is on no literal onto that one. It takes no memory.
    pub fn attach(&mut self, watch: usize, literal: u32)
        requires watch { watch < length self.old.literals }
        requires free { slice_index self.old.literals watch ≡ 0 }
        requires some { 0 < literal }
        requires below { literal < self.old.limit }
        ensures { self.new ≡ record self.old { literals = set self.old.literals watch literal } }
    {
        self.literals[watch] = literal;
        self.lists.push(literal as usize, watch);
    }

    /// Lets all watches on that literal wait, where none waits yet. It takes no memory.
    pub fn gather(&mut self, literal: u32)
        requires some { 0 < literal }
        requires below { literal < self.old.limit }
        requires none { self.old.waiting ≡ [] }
        ensures limit { self.new.limit ≡ self.old.limit }
        ensures literals { self.new.literals ≡ self.old.literals }
        ensures on { (n : ℕ) → is_set self.new.waiting n ≡ true → slice_index self.old.literals n ≡ literal }
        ensures all { (n : ℕ) → slice_index self.old.literals n ≡ literal → is_set self.new.waiting n ≡ true }
    {
        self.lists.move_all(literal as usize, 0);
    }

    /// Takes one of the watches that wait off its literal. It takes no memory.
    pub fn take(&mut self) -> Option<usize>
        ensures { MatchOption result
            ((self.old.waiting ≡ []) × (self.new ≡ self.old))
            (λ n. (n < length self.old.literals) × (0 < slice_index self.old.literals n) × (is_set self.new.waiting n ≡ false)
            × (self.old.waiting ≡ n ∷ self.new.waiting) × (self.new ≡ record self.old { literals = set self.old.literals n 0; waiting = self.new.waiting })) }
    {
        let watch = self.lists.pop(0)?;
        self.literals[watch] = 0;
        Some(watch)
    }
}
