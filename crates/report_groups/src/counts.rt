//! How often keys stand in a list.
ghost use Rattle.std.specs.Prelude.{◌≡◌, ℕ, ◌+◌, ◌<◌, ◌^◌, List, [], IfOk, OnOk, if◌then◌else◌};
ghost use Rattle.std.specs.Str.{bytes_eq};
ghost use Rattle.report_groups.specs.Counts.{AreCountsOf, IsCountedOnce};
ghost use Rattle.report_groups.specs.Counts as spec;

use indexmap::IndexMap;
use sdcv_base::Name;
use std::alloc::{AllocError, Global};
use std::marker::Model;

/// Keys, each with the number of its places in a list. A look-up takes the time of one hash.
#[derive(Drop)]
pub(crate) struct Counts {
    counts: IndexMap<Name, u64>,
}

impl Model for Counts {
    ghost use Rattle.report_groups.specs.Counts.{Counted};

    ghost Value = { Counted };

    ghost view = { λ c. c.counts.entries };
}

impl Counts {
    /// No key.
    pub fn new(alloc: Global) -> Counts
        ensures { AreCountsOf [] result }
    {
        Counts {
            counts: IndexMap::new(alloc),
        }
    }

    /// The keys of a list, each counted.
    pub fn of(alloc: Global, keys: &[Name]) -> Result<Counts, AllocError>
        ensures { IfOk result (AreCountsOf keys.now) }
    {
        let mut counts = Counts::new(alloc);
        for key in keys {
            counts.add(alloc, key)?;
        }
        Ok(counts)
    }

    /// How often a key was counted.
    pub fn count(&self, key: &Name) -> u64
        ensures { result ≡ spec.count_in self.now key.now }
    {
        self.counts.get(key).copied().unwrap_or(0)
    }

    /// Counts a key once more.
    pub fn add(&mut self, alloc: Global, key: &Name) -> Result<(), AllocError>
        requires { spec.count_in self.old key.now < 2 ^ 63 }
        ensures { OnOk result (IsCountedOnce self.old key.now self.new) }
    {
        let count = self.count(key);
        let key = key.copy(alloc)?;
        self.counts.insert(key, count + 1)?;
        Ok(())
    }
}
