//! The commands that stand in a mended script in the places of those whose pairs are not all justified (SDC 2.1,
//! `set_false_path` and `set_multicycle_path`).
//!
//! Read `specs/Lines.antt` first: the commands of a group of pairs, which select exactly these. `specs/Holds.antt` says what becomes of a
//! `-hold` command, and `specs/Bodies.antt` what stands in the place of each command of a script. `bodies` is the call. Which pairs are
//! kept, and in which groups they stand, is left to mend_groups, and which commands go with a `-hold` command to script_notices.
#![tactic(auto)]

mod all_bodies;
mod bundles;
mod claim_bodies;
mod comments;
mod counts;
mod fates;
mod hold_bodies;
mod joins;
mod lines;
mod lists;
mod mendings;
mod names;
mod stars;
mod words;

pub use all_bodies::bodies;
pub use counts::{is_whole, kept_count, line_count};
pub use fates::{HoldFate, hold_fate};
pub use mendings::Mending;
