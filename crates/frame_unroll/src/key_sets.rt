//! Sets of keys, each with a number.
ghost use Rattle.std.specs.Prelude.{◌≡◌, ◌<◌, ◌≤◌, ◌+◌, ◌-◌, ◌^◌, ◌∷◌, ◌++◌, ◌↔◌, [], ℕ, false, IsTrue, Some, length, slice_get, IfOk, OnOk};
ghost use Rattle.std.specs.List.{IsDistinct};
ghost use Rattle.query_model.specs.Formula.{same_key, has_key};
ghost use Rattle.frame_unroll.specs.Found.{with_key, AreAscending};
ghost use Rattle.frame_unroll.specs.Framed.{number_if_any};

use crate::key_pages::{PAGE, is_small, make_page, number_at, page_place, slot};
use query_model::Key;
use std::alloc::{AllocError, Global};
use std::marker::Model;

/// Keys, each once, in the order in which they came. A look-up hashes nothing: it reads the number where the key lies, by its cycle,
/// layer, rail and point.
///
/// Contracts see the list of the keys. What always holds (`AreNumbered`):
/// - wide: no rail has more pages than there are points.
/// - are_pages: the first page has no number, and each page is among the numbers.
/// - few: a number fits 32 bits.
/// - small: each key has a page.
/// - placed: where a key lies stands its place, counted from 1.
///
/// That a number where another key lies is none of this key's is not said: a look-up compares the keys.
#[derive(Drop)]
pub struct KeySet {
    keys: Vec<Key>,
    width: usize,
    pages: Vec<u32>,
    numbers: Vec<u32>,
}

impl Model for KeySet {
    ghost use Rattle.std.specs.Prelude.{List};
    ghost use Rattle.query_model.specs.declared.keys.Key.{Key};
    ghost use Rattle.frame_unroll.specs.KeySets.{AreNumbered};

    ghost Value = { List Key };

    ghost view = { λ s. s.keys.items };

    ghost invariant = { λ s. AreNumbered s.width s.pages.items s.numbers.items s.keys.items };
}

/// Whether the key has this number, counted from 1.
fn has_number(keys: &[Key], number: u32, key: Key) -> bool
    ensures { IsTrue result ↔ ((0 < number) × (slice_get keys.now (number - 1) ≡ Some key)) }
{
    let number = number as usize;
    if number == 0 || keys.len() < number {
        return false;
    }
    keys[number - 1] == key
}

impl KeySet {
    /// No keys, where points are below a number.
    pub fn new(alloc: Global, points: usize) -> Result<KeySet, AllocError>
        requires { points ≤ 220050 }
        ensures { IfOk result (λ set. set ≡ []) }
    {
        KeySet::of_width(alloc, points / PAGE + 1)
    }

    /// No keys, where each rail has so many pages.
    fn of_width(alloc: Global, width: usize) -> Result<KeySet, AllocError>
        requires { width ≤ 1720 }
        ensures { IfOk result (λ set. set ≡ []) }
    {
        let numbers = Vec::from_elem(alloc, 0, PAGE)?;
        Ok(KeySet {
            keys: Vec::new(alloc),
            width,
            pages: Vec::new(alloc),
            numbers,
        })
    }

    /// How many keys there are.
    pub fn len(&self) -> usize
        ensures value { result ≡ length self.now }
        ensures few { length self.now < 2 ^ 32 }
        ensures distinct { IsDistinct same_key self.now }
    {
        self.keys.len()
    }

    /// The key at a place, from 0.
    pub fn key(&self, place: usize) -> Key
        requires { place < length self.now }
        ensures { slice_get self.now place ≡ Some result }
    {
        self.keys[place]
    }

    /// The number of a key, if it is one of these: its place, counted from 1.
    pub fn number(&self, key: Key) -> Option<u32>
        ensures { result ≡ number_if_any self.now key }
    {
        let number = number_at(self.width, &self.pages, &self.numbers, key);
        if has_number(&self.keys, number, key) {
            Some(number)
        } else {
            None
        }
    }

    /// Adds a key, where it is new.
    pub fn insert(&mut self, key: Key) -> Result<(), AllocError>
        ensures { OnOk result (self.new ≡ with_key self.old key) }
    {
        if self.number(key).is_some() {
            return Ok(());
        }
        self.add(key)
    }

    /// Adds a key that is new. Keys with no page, and so many that their numbers don't fit, are more than memory holds.
    fn add(&mut self, key: Key) -> Result<(), AllocError>
        requires { has_key self.old key ≡ false }
        ensures { OnOk result (self.new ≡ self.old ++ key ∷ []) }
    {
        if !is_small(key) || self.keys.len() >= 0xffff_fffe {
            return Err(AllocError);
        }
        let place = page_place(self.width, key);
        make_page(&mut self.pages, &mut self.numbers, place)?;
        let at = slot(self.width, &self.pages, key);
        // no two keys lie at one place, so no number stands there
        if self.numbers[at] != 0 {
            return Err(AllocError);
        }
        self.keys.push(key)?;
        self.numbers[at] = self.keys.len() as u32;
        Ok(())
    }

    /// These keys, where each rail has so many pages.
    fn of(alloc: Global, width: usize, keys: &[Key]) -> Result<KeySet, AllocError>
        requires wide { width ≤ 1720 }
        requires distinct { IsDistinct same_key keys.now }
        ensures { IfOk result (λ set. set ≡ keys.now) }
    {
        let mut set = KeySet::of_width(alloc, width)?;
        for key in keys {
            set.add(*key)?;
        }
        Ok(set)
    }

    /// The same keys in ascending order.
    pub fn in_order(self, alloc: Global) -> Result<KeySet, AllocError>
        ensures { IfOk result (AreAscending self) }
    {
        let KeySet {
            mut keys,
            width,
            pages: _pages,
            numbers: _numbers,
        } = self;
        keys.sort_unstable();
        KeySet::of(alloc, width, &keys)
    }
}
