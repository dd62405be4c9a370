//! The pairs of a start and an end that the exceptions of an SDC script select in a linked design, with their claims
//! (SDC 2.1, `set_false_path` and `set_multicycle_path`).
//!
//! Read `specs/Points.antt`, `specs/Asking.antt` and `specs/Selections.antt` first: which starts and ends an exception means, of
//! which sides of its pairs it claims something, which pairs it selects, and what is listed of them; `specs/Causes.antt` has the
//! cause of each refusal. Then `scripts.rt`: `expand` goes through the commands (`commands.rt`), and for each exception that asks
//! something (`asks.rt`) finds its starts, ends and through sets (`lists.rt`), and start by start the ends to which a path leads
//! (`pairs.rt`). Verdicts on the claims are left to the crates above.
#![tactic(auto)]

mod asks;
mod choices;
mod claims;
mod commands;
mod driven;
mod judged;
mod limits;
mod lines;
mod lists;
mod marks;
mod names;
mod pairs;
mod points;
mod scripts;
mod sets;
mod sides;
mod tasks;

pub use asks::Ask;
pub use choices::{Choice, choose};
pub use limits::{MOST_JUDGED, MOST_PAIRS};
pub use lists::{Lists, lists_of};
pub use pairs::Pair;
pub use points::{Listed, Points};
pub use scripts::expand;
pub use sides::{Side, Sides};
