//! A script with what is proved of its exceptions alone: whole exceptions stay as they are written, and each other one is replaced by
//! commands that select exactly its justified pairs (SDC 2.1).
//!
//! Read `specs/Mended.antt` first: which text a script is mended to, and what reading it back has to give. `mend` makes the text, reads
//! it, and refuses it where it is not read as it is meant; `specs/Tellings.antt` has the lines that a run prints of it. Which pairs are
//! justified, and how a command is written, is left to the crates below.
#![tactic(auto)]

mod claims;
mod exceptions;
mod expected;
mod faults;
mod left_lines;
mod lines;
mod mending;
mod outcomes;
mod reading;
mod scenes;
mod settings;
mod tellings;
mod totals;

pub use faults::{MendFault, mend_line};
pub use mending::{Mended, mend};
pub use scenes::{Findings, Scene};
pub use tellings::mended_lines;
