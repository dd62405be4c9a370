//! The names that stand before a `/` of a pattern.
ghost use Rattle.std.specs.Prelude.{◌≡◌, ℕ, List, true, IfOk, length};
ghost use Rattle.texts.specs.Names.{are_distinct};
ghost use Rattle.glob.specs.Indexes.{IsIndexOf};
ghost use Rattle.glob.specs.Owners as spec;
ghost use Rattle.glob.specs.Owners.{IsOwner, IsOwnerTo, IsPlace};

use crate::indexes::{Index, is_exact};
use sdcv_base::Name;
use std::alloc::{AllocError, Global};
use texts::upto;

/// Which names of a list stand before a `/` of a pattern: none, the one at this place alone, or several, or the table doesn't
/// tell.
#[derive(Clone, Copy, Debug, PartialEq, Eq)]
pub enum Owner {
    Nobody,
    One(usize),
    Many,
}

impl Index {
    /// The name that stands before a `/` of the pattern, if the pattern matches itself alone. It takes the time of one look
    /// into a table for each `/`.
    pub fn owner(&self, alloc: Global, pattern: &Name, hier: bool) -> Result<Owner, AllocError>
        ensures { IfOk result (λ owner. (names : List (List ℕ)) → IsIndexOf names self.now → IsOwner names pattern.now hier owner) }
    {
        if !self.distinct || !is_exact(pattern, hier) {
            return Ok(Owner::Many);
        }
        self.owner_of(alloc, pattern)
    }

    fn owner_of(&self, alloc: Global, pattern: &Name) -> Result<Owner, AllocError>
        ensures { IfOk result (λ owner. are_distinct self.now.names ≡ true → IsOwnerTo self.now.names pattern.now (length pattern.now) owner) }
    {
        let bytes = pattern.as_bytes();
        let mut owner = Owner::Nobody;
        for slash in 0..bytes.len() {
            if bytes[slash] == b'/' {
                owner = joined(owner, self.place_of(alloc, upto(bytes, slash))?);
            }
        }
        Ok(owner)
    }

    fn place_of(&self, alloc: Global, name: &[u8]) -> Result<Option<usize>, AllocError>
        ensures { IfOk result (λ place. are_distinct self.now.names ≡ true → IsPlace self.now.names name.now place) }
    {
        let name = Name::new(alloc, name)?;
        Ok(self.place(&name))
    }
}

// One more name before a slash, if there is one.
fn joined(owner: Owner, place: Option<usize>) -> Owner
    ensures { result ≡ spec.join owner place }
{
    match (owner, place) {
        (owner, None) => owner,
        (Owner::Nobody, Some(place)) => Owner::One(place),
        (Owner::One(_), Some(_)) => Owner::Many,
        (Owner::Many, Some(_)) => Owner::Many,
    }
}
