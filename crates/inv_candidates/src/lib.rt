//! The clauses over register bits that an induction tries: those of one or two literals over the registers near each claim, and
//! those of a text that assists it.
//!
//! Read `lists.rt` first: `candidates` lists the clauses of each claim's group, each once, up to 8,192 of them, and `with_more`
//! adds others, of any length (`tables.rt`). `specs/Clauses.antt` has the clauses of a group in their order,
//! `specs/Candidates.antt` what the list of all claims is, and `specs/Listing.antt` what it is to add to a list.
//!
//! `groups.rt` has the registers near a claim: its start and end, those that feed them through gates, those that feed these, and
//! so on. `group` finds the first sixteen of them level by level. For each level `sweeps.rt` looks at each gate once, from the
//! last to the first, and marks the nets that lead to the registers found so far. `specs/Near.antt` says which registers are
//! near, and in what order.
#![tactic(auto)]

mod groups;
mod levels;
mod listings;
mod lists;
mod shorts;
mod sweeps;
mod tables;

pub use groups::group;
pub use lists::{candidates, with_more};
