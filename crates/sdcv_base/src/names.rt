//! Names, as bytes.
ghost use Rattle.std.specs.Prelude.{◌≡◌, ℕ, List, IfOk, ◌==◌, ◌<◌, Some};
ghost use Rattle.sdcv_base.specs.Shown.{shown, shown_byte};
ghost use Rattle.std.proofs.Common.{rules};
ghost use Rattle.std.specs.Str.{bytes_eq};
ghost use Rattle.std.specs.Hash as fed;
ghost use Rattle.std.specs.Cmp.Rules.{comparing, hashing};

use smallvec::SmallVec;
use std::alloc::{AllocError, Global};
use std::fmt;
use std::hash::{Hash, Hasher};
use std::marker::Model;

/// A name of a text: a list of bytes, of any values. One of at most 24 bytes asks for no memory of its own.
#[derive(Debug)]
pub struct Name {
    bytes: SmallVec<u8, 24>,
}

impl Model for Name {
    ghost Value = { List ℕ };

    ghost view = { λ n. n.bytes.items };
}

impl Name {
    /// Keeps a copy of the bytes.
    pub fn new(alloc: Global, bytes: &[u8]) -> Result<Name, AllocError>
        ensures { IfOk result (λ n. n ≡ bytes.now) }
    {
        Ok(Name {
            bytes: SmallVec::from_slice(alloc, bytes)?,
        })
    }

    /// The name of these bytes.
    pub fn from_vec(bytes: Vec<u8>) -> Name
        ensures { result ≡ bytes.items }
    {
        Name {
            bytes: SmallVec::from_vec(bytes),
        }
    }

    pub fn as_bytes(&self) -> &[u8]
        ensures { result.now ≡ self.now }
    {
        self.bytes.as_slice()
    }

    /// An equal name.
    pub fn copy(&self, alloc: Global) -> Result<Name, AllocError>
        ensures { IfOk result (λ n. n ≡ self.now) }
    {
        Name::new(alloc, self.as_bytes())
    }
}

// A name is let go by a call of its own: whoever owns one proves nothing of how its bytes are kept.
impl Drop for Name {
    fn drop(self) {
        let Name { bytes: _bytes } = self;
    }
}

impl PartialEq for Name {
    ghost eq = { λ a b. bytes_eq a b };

    ghost laws = { Prim.search (comparing, rules) };

    fn eq(&self, other: &Name) -> bool {
        self.as_bytes() == other.as_bytes()
    }
}

impl Eq for Name {
    ghost laws = { Prim.search (comparing, rules) };
}

impl Hash for Name {
    ghost hash_input = { λ n. fed.slice fed.u8 n };

    ghost respects_eq = { Prim.search (hashing, rules) };

    fn hash<H: Hasher>(&self, state: &mut H) {
        self.as_bytes().hash(state);
    }
}

// The byte itself from 32 to 126, and else a `?`.
fn shown_char(byte: u8) -> char
    ensures shown { result ≡ shown_byte byte }
    ensures ascii { result < 128 }
{
    if 32 <= byte && byte <= 126 {
        char::from(byte)
    } else {
        '?'
    }
}

/// A byte outside 32 to 126 is shown as a `?`.
impl fmt::Display for Name {
    ghost output = { λ n. Some (shown n) };

    fn fmt<W: fmt::Write>(&self, f: &mut fmt::Formatter<W>) -> fmt::Result {
        for byte in self.as_bytes() {
            let glyph = shown_char(*byte);
            write!(f, "{glyph}")?;
        }
        Ok(())
    }
}
