//! Names in a table, with their places.
ghost use Rattle.std.specs.Prelude.{◌≡◌, ◌++◌, ◌∷◌, ℕ, List, [], true, OnOk};
ghost use Rattle.texts.specs.Names.{are_distinct};
ghost use Rattle.glob.specs.Indexes as spec;
ghost use Rattle.glob.specs.Indexes.{IsIndexOf, IsExact, IsLook};
ghost use Rattle.glob.specs.Owners.{IsPlace};

use crate::globs::is_plain;
use sdcv_base::Name;
use std::alloc::{AllocError, Global};
use texts::NameTable;

/// The names of a list in a table, and whether no two of them are equal: then each stands at its place of the list.
#[derive(Drop)]
pub struct Index {
    pub(crate) names: NameTable,
    pub(crate) distinct: bool,
}

/// Where a pattern matches a name of a list: nowhere, at this place alone, or the table doesn't tell, since two names are equal
/// or the pattern may match another name than itself.
#[derive(Clone, Copy, Debug, PartialEq, Eq)]
pub enum Look {
    Nowhere,
    At(usize),
    Anywhere,
}

/// Whether a pattern has no wildcard, and matches itself and no other name. With `hier` it may match below a `/` too.
pub fn is_exact(pattern: &Name, hier: bool) -> bool
    ensures exact { result ≡ spec.is_exact pattern.now hier }
    ensures itself { result ≡ true → IsExact pattern.now hier }
{
    !hier && is_plain(pattern.as_bytes())
}

impl Index {
    /// The index of no names.
    pub fn new(alloc: Global) -> Index
        ensures { IsIndexOf [] result }
    {
        Index {
            names: NameTable::new(alloc),
            distinct: true,
        }
    }

    /// Adds the next name of the list.
    pub fn add(&mut self, alloc: Global, name: &Name) -> Result<(), AllocError>
        ensures { OnOk result ((names : List (List ℕ)) → IsIndexOf names self.old → IsIndexOf (names ++ name.now ∷ []) self.new) }
    {
        let fresh = self.names.add(alloc, name)?;
        self.distinct = self.distinct && fresh;
        Ok(())
    }

    /// Where a pattern matches a name of the list. It takes the time of one look into a table.
    pub fn look(&self, pattern: &Name, hier: bool) -> Look
        ensures { (names : List (List ℕ)) → IsIndexOf names self.now → IsLook names pattern.now hier result }
    {
        if !self.distinct || !is_exact(pattern, hier) {
            return Look::Anywhere;
        }
        match self.place(pattern) {
            Some(place) => Look::At(place),
            None => Look::Nowhere,
        }
    }

    // The place of a name in the table, if it is there.
    pub(crate) fn place(&self, name: &Name) -> Option<usize>
        ensures { are_distinct self.now.names ≡ true → IsPlace self.now.names name.now result }
    {
        if self.names.contains(name) {
            Some(self.names.place(name))
        } else {
            None
        }
    }
}
