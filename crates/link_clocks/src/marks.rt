//! The nets that the clock comes to, as rows of marks.
ghost use Rattle.std.specs.Prelude.{◌≡◌, ◌<◌, ℕ, Bool, false, length, IfOk};
ghost use Rattle.sdcv_base.specs.Seqs.{is_marked};
ghost use Rattle.link_clocks.specs.Marks.{marked_at, is_reached as spec_reached, with_mark, AreRows};

use sdcv_base::Seq;
use std::alloc::{AllocError, Global};

/// Marks of the nets to which the clock comes after an even number of inversions, and of those to which it comes after an odd
/// one. A net with many drivers may be one of both.
#[derive(Drop)]
pub(crate) struct ClockMarks {
    pub(crate) even: Seq<bool>,
    pub(crate) odd: Seq<bool>,
}

/// A net to which the clock comes, after an odd or an even number of inversions.
#[derive(Clone, Copy)]
pub(crate) struct Reached {
    pub(crate) odd: bool,
    pub(crate) net: usize,
}

/// Whether a net is marked.
pub(crate) fn is_marked(marks: &Seq<bool>, net: usize) -> bool
    ensures { result ≡ is_marked marks.now net }
{
    net < marks.len() && marks.at(net)
}

impl ClockMarks {
    /// No mark, for so many nets.
    pub(crate) fn none(alloc: Global, nets: usize) -> Result<ClockMarks, AllocError>
        ensures rows { IfOk result (AreRows nets) }
        ensures none { IfOk result (λ marks. (net : ℕ) (odd : Bool) → marked_at marks odd net ≡ false) }
    {
        Ok(ClockMarks {
            even: Seq::filled(alloc, false, nets)?,
            odd: Seq::filled(alloc, false, nets)?,
        })
    }

    /// Whether the clock has come to a net so.
    pub(crate) fn is_reached(&self, at: Reached) -> bool
        ensures { result ≡ spec_reached self.now at }
    {
        if at.odd {
            is_marked(&self.odd, at.net)
        } else {
            is_marked(&self.even, at.net)
        }
    }

    /// One mark more.
    pub(crate) fn put(&mut self, at: Reached)
        requires even { at.net < length self.old.even }
        requires odd { at.net < length self.old.odd }
        ensures { self.new ≡ with_mark at.odd at.net self.old }
    {
        if at.odd {
            self.odd.put(at.net, true);
        } else {
            self.even.put(at.net, true);
        }
    }
}
