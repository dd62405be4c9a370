//! What a user is told of a script beside its exceptions: which commands are passed over, of which no verdict speaks though a timing
//! analyser obeys them, and how many false paths take hold checks off that are not judged (SDC 2.1).
//!
//! Read `specs/Notices.antt` first: what is told, as values. `notices` is the call. `specs/Companions.antt` has hold numbers and the
//! multicycle paths that go with them, for whoever writes a script again. What a script selects is left to the crates that select, and
//! how it is printed to the reports.
#![tactic(auto)]

mod counts;
mod lows;
mod numbers;
mod objects;
mod pairs;
mod shifts;
mod skipped;
mod tellings;
mod unjudged;

pub use objects::{is_asked, is_edge};
pub use shifts::{HoldShift, is_companion, next_place};
pub use skipped::skipped_of;
pub use tellings::{Terms, notices};
