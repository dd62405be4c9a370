//! A list of values that contracts see as its items alone.
ghost use Rattle.std.specs.Prelude.{◌≡◌, ◌<◌, ℕ, [], ◌∷◌, ◌++◌, ◌↔◌, IsTrue, length, replicate, IfOk, OnOk, OnErr, slice_get, slice_set, slice_index_or, Some};

use std::alloc::{AllocError, AllocFailed, Global};
use std::marker::Model;

/// A list that is compared by its items, whatever room it has.
#[derive(Debug, Drop)]
pub struct Seq<T> {
    items: Vec<T>,
}

impl<T> Model for Seq<T> {
    ghost use Rattle.std.specs.Prelude.{List};

    ghost Value = { List T };

    ghost view = { λ s. s.items.items };
}

impl<T> Seq<T> {
    /// The empty list. It takes no memory.
    pub fn new(alloc: Global) -> Seq<T>
        ensures { result ≡ [] }
    {
        Seq {
            items: Vec::new(alloc),
        }
    }

    /// The items of a vector, which are not copied.
    pub fn from_vec(items: Vec<T>) -> Seq<T>
        ensures { result ≡ items.items }
    {
        Seq { items }
    }

    /// The vector of the items, which are not copied.
    pub fn into_vec(self) -> Vec<T>
        ensures { result.items ≡ self }
    {
        let Seq { items } = self;
        items
    }

    pub fn push(&mut self, value: T) -> Result<(), AllocFailed<T>>
        ensures ok { OnOk result (self.new ≡ self.old ++ value ∷ []) }
        ensures err { OnErr result (self.new ≡ self.old) }
    {
        self.items.push(value)
    }

    pub fn len(&self) -> usize
        ensures { result ≡ length self.now }
    {
        self.items.len()
    }

    pub fn is_empty(&self) -> bool
        ensures { IsTrue result ↔ (self.now ≡ []) }
    {
        self.items.is_empty()
    }

    pub fn as_slice(&self) -> &[T]
        ensures { result.now ≡ self.now }
    {
        self.items.as_slice()
    }

    /// The item at a place, from 0.
    pub fn item(&self, place: usize) -> &T
        requires { place < length self.now }
        ensures { slice_get self.now place ≡ Some result.now }
    {
        &self.items[place]
    }
}

impl<T: Drop> Seq<T> {
    /// The list of one item.
    pub fn one(alloc: Global, item: T) -> Result<Seq<T>, AllocError>
        ensures { IfOk result (λ s. s ≡ item ∷ []) }
    {
        let mut items = Seq::new(alloc);
        items.push(item)?;
        Ok(items)
    }
}

impl<T: Copy> Seq<T> {
    /// These items, copied.
    pub fn of(alloc: Global, items: &[T]) -> Result<Seq<T>, AllocError>
        ensures { IfOk result (λ s. s ≡ items.now) }
    {
        Ok(Seq {
            items: Vec::from_slice(alloc, items)?,
        })
    }

    /// One value at each of `count` places.
    pub fn filled(alloc: Global, value: T, count: usize) -> Result<Seq<T>, AllocError>
        ensures all { IfOk result (λ s. s ≡ replicate count value) }
        ensures len { IfOk result (λ s. length s ≡ count) }
        ensures each { IfOk result (λ s. (place : ℕ) → slice_index_or s place value ≡ value) }
    {
        let mut items = Vec::with_capacity(alloc, count)?;
        for _ in 0..count {
            items.push(value)?;
        }
        Ok(Seq { items })
    }

    /// The item at a place, from 0.
    pub fn at(&self, place: usize) -> T
        requires { place < length self.now }
        ensures { slice_get self.now place ≡ Some result }
    {
        self.items[place]
    }

    /// Writes one place.
    pub fn put(&mut self, place: usize, value: T)
        requires { place < length self.old }
        ensures { self.new ≡ slice_set self.old place value }
    {
        self.items[place] = value;
    }

    /// An equal list.
    pub fn copy(&self, alloc: Global) -> Result<Seq<T>, AllocError>
        ensures { IfOk result (λ s. s ≡ self.now) }
    {
        Ok(Seq {
            items: Vec::from_slice(alloc, &self.items)?,
        })
    }
}

impl<T: Copy> Seq<Seq<T>> {
    /// Writes one place of one row.
    pub fn put_in(&mut self, row: usize, place: usize, value: T)
        requires row { row < length self.old }
        requires place { place < length (slice_index_or self.old row []) }
        ensures { self.new ≡ slice_set self.old row (slice_set (slice_index_or self.old row []) place value) }
    {
        let row = &mut self.items[row];
        row.put(place, value);
    }
}
