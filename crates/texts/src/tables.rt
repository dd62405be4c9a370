//! Tables of names.
ghost use Rattle.std.specs.Prelude.{◌≡◌, ℕ, List, [], OnOk, OnErr, IfOk, not, map, length, slice_get};
ghost use Rattle.std.specs.Option.{option_copied};
ghost use Rattle.texts.specs.Names.{is_among, place_of, with_name, with_names, are_new};

use indexmap::IndexSet;
use sdcv_base::Name;
use std::alloc::{AllocError, Global};
use std::marker::Model;

/// What goes by a name.
pub trait Named {
    ghost named: { Self → List ℕ };

    fn name(&self) -> &Name
        ensures { result.now ≡ named self.now };
}

impl Named for Name {
    ghost named = { λ n. n };

    fn name(&self) -> &Name {
        self
    }
}

/// Names that differ, in the order in which they were added. A look-up takes the time of one hash.
#[derive(Drop)]
pub struct NameTable {
    names: IndexSet<Name>,
}

impl Model for NameTable {
    ghost Value = { List (List ℕ) };

    ghost view = { λ t. t.names.keys };
}

impl NameTable {
    pub fn new(alloc: Global) -> Self
        ensures { result ≡ [] }
    {
        NameTable {
            names: IndexSet::new(alloc),
        }
    }

    /// How many names there are.
    pub fn len(&self) -> usize
        ensures { result ≡ length self.now }
    {
        self.names.len()
    }

    /// Whether the name is there.
    pub fn contains(&self, name: &Name) -> bool
        ensures { result ≡ is_among name.now self.now }
    {
        self.names.contains(name)
    }

    /// The place of a name, and the number of the names where it is not there.
    pub fn place(&self, name: &Name) -> usize
        ensures { result ≡ place_of name.now self.now }
    {
        self.names.get_index_of(name).unwrap_or(self.names.len())
    }

    /// Adds a name where it is not there, and tells whether it is new.
    pub fn add(&mut self, alloc: Global, name: &Name) -> Result<bool, AllocError>
        ensures fresh { IfOk result (λ fresh. fresh ≡ not (is_among name.now self.old)) }
        ensures ok { OnOk result (self.new ≡ with_name self.old name.now) }
        ensures err { OnErr result (self.new ≡ self.old) }
    {
        if self.contains(name) {
            return Ok(false);
        }
        let name = name.copy(alloc)?;
        self.names.insert(name)?;
        Ok(true)
    }

    /// The name at a place.
    pub fn name(&self, place: usize) -> Option<&Name>
        ensures { option_copied result ≡ slice_get self.now place }
    {
        self.names.get_index(place)
    }

    /// Adds the name of each of these in turn, and tells whether all were new. Where memory runs out, some may have been
    /// added.
    pub fn add_all<T: Named>(&mut self, alloc: Global, these: &[T]) -> Result<bool, AllocError>
        ensures fresh { IfOk result (λ fresh. fresh ≡ are_new self.old (map T.named these.now)) }
        ensures ok { OnOk result (self.new ≡ with_names self.old (map T.named these.now)) }
    {
        let mut fresh = true;
        for one in these {
            let added = self.add(alloc, one.name())?;
            fresh = fresh && added;
        }
        Ok(fresh)
    }

    /// The names in their order.
    pub fn names(&self, alloc: Global) -> Result<Vec<Name>, AllocError>
        ensures { IfOk result (λ names. names.items ≡ self.now) }
    {
        let mut found = Vec::new(alloc);
        for name in self.names.iter() {
            found.push(name.copy(alloc)?)?;
        }
        Ok(found)
    }
}
