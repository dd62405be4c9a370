//! Accepted lists: which refuted and undecided pairs of a report, and which of its notes, are known and accepted.
//!
//! Read `read_list`, `list_on` and `open_of` first, and `specs/Entries.antt` for the two forms of an entry on pairs. What the lines
//! of a list accept on a day is said in `specs/InForce.antt`, and `specs/Accepted.antt` says which pairs and notes that are. No clock
//! is read: the day is given. What stops a build is up to the crate above.
#![tactic(auto)]

mod accepted;
mod cuts;
mod days;
mod entry_words;
mod in_force;
mod lists;
mod notes;
mod pair_entries;
mod reads;
mod remarks;

pub use accepted::open_of;
pub use days::{Day, day_of, is_over};
pub use in_force::{last_days, list_on};
pub use lists::{AcceptedList, Entry, LastDay, ListFault, ListLine};
pub use notes::{accepts_note, said_in};
pub use pair_entries::PairEntry;
pub use reads::read_list;
pub use remarks::{Remark, pair_remark};
