//! Lists of items up to a closing mark.
ghost use Rattle.std.specs.Prelude.{◌≡◌, ◌<◌, ℕ, length, OnOk};
ghost use Rattle.sdcv_base.specs.Cursors.{rest, text_of};
ghost use Rattle.texts.specs.Rules.{Reads};
ghost use Rattle.lib_words.specs.Reads.{Fails, Rule};
ghost use Rattle.lib_words.specs.Lists as spec;

use crate::faults::GroupFault;
use crate::tokens::try_mark;
use sdcv_base::Cursor;
use std::alloc::Global;

/// What is gathered from the items of a list.
pub trait Gather: Drop {
    /// What an item adds to what was gathered before it, where so many groups may stand in it, one inside the other.
    ghost adds: { ℕ → Self → Rule Self };

    fn add(&mut self, alloc: Global, c: &mut Cursor<'_>, room: usize) -> Result<(), GroupFault>
        ensures value { Reads c.old c.new Fails (λ _. self.new) result (adds room self.old) }
        ensures text { text_of c.new ≡ text_of c.old }
        ensures shorter { OnOk result (length (rest c.new) < length (rest c.old)) };
}

/// Gathers the items up to the closing mark, which is passed. Marks `between` may stand among them anywhere.
pub fn list<G: Gather>(
    alloc: Global,
    c: &mut Cursor<'_>,
    close: u8,
    between: u8,
    room: usize,
    found: &mut G,
) -> Result<(), GroupFault>
    requires close { 0 < close }
    requires between { 0 < between }
    ensures value { Reads c.old c.new Fails (λ _. found.new) result (spec.list_at close between (G.adds room) found.old) }
    ensures text { text_of c.new ≡ text_of c.old }
    ensures shorter { OnOk result (length (rest c.new) < length (rest c.old)) }
{
    'items: loop {
        if try_mark(c, close) {
            return Ok(());
        }
        if try_mark(c, between) {
            continue;
        }
        found.add(alloc, c, room)?;
    }
}
