//! What the objects of an SDC script name in a linked design, and what that stands for in an exception (SDC 2.1, object
//! access).
//!
//! Read `specs/Things.antt` (what a pattern names in each class) and `specs/Standing.antt` (the table of what each thing
//! stands for as a start, an end or a through pin) first, `specs/Clocks.antt` for which clock is the judged one, and
//! `specs/Delays.antt` for the ports of a clock; then `lists.rt`,
//! which goes through the objects of a list. A name without wildcards is one look into a table of names (`tables.rt`), any
//! other pattern goes through the names.
#![tactic(auto)]

mod clocks;
mod columns;
mod cuts;
mod delays;
mod found;
mod lists;
mod named;
mod pins;
mod scopes;
mod several;
mod strict;
mod tables;
mod things;
mod warnings;

pub use columns::Column;
pub use lists::meant;
pub use scopes::Scope;
pub use tables::Tables;
pub use things::{ClockKind, Place, Thing};
