//! The lines of an accepted list, what is accepted on a day, and why a text is no list.
use crate::days::Day;
use crate::pair_entries::PairEntry;
use sdcv_base::{Name, Seq};
use std::alloc::{AllocError, AllocFailed};
use thiserror::Error;

/// What a line accepts: the pairs that an entry fits, or the notes of these words.
#[derive(Drop)]
pub enum Entry {
    OnPairs(PairEntry),
    OnNote(Name),
}

/// A line of a list: its number, from 1, and what it accepts, up to and with a last day where it says so.
#[derive(Drop)]
pub struct ListLine {
    pub number: u64,
    pub entry: Entry,
    pub until: Option<Day>,
}

/// The last day of a line.
#[derive(Clone, Copy)]
pub struct LastDay {
    pub line: u64,
    pub last: Day,
}

/// What is accepted on a day: the entries on pairs, and the notes by their words.
#[derive(Drop)]
pub struct AcceptedList {
    pub pairs: Seq<PairEntry>,
    pub notes: Seq<Name>,
}

/// Why a text is no accepted list. Lines count from 1.
#[derive(Clone, Copy, Debug, Drop, Error, PartialEq, Eq)]
pub enum ListFault {
    /// That line is the first that is none of a list.
    #[error("line {0} is no line of an accepted list")]
    Line(u64),
    #[error("out of memory")]
    Memory,
}

impl From<AllocError> for ListFault {
    ghost use Rattle.std.specs.Prelude.{◌≡◌};
    ghost use Rattle.accepted_lists.specs.declared.lists.ListFault.TheVariants.{Memory};

    ghost from_gives = { λ _ e. e ≡ Memory };

    fn from(_: AllocError) -> ListFault {
        ListFault::Memory
    }
}

impl<T: Drop> From<AllocFailed<T>> for ListFault {
    ghost use Rattle.std.specs.Prelude.{◌≡◌};
    ghost use Rattle.accepted_lists.specs.declared.lists.ListFault.TheVariants.{Memory};

    ghost from_gives = { λ _ e. e ≡ Memory };

    fn from(_: AllocFailed<T>) -> ListFault {
        ListFault::Memory
    }
}
