//! Boolean functions as a Liberty file writes them: from the text of a `function`, `next_state` or `clear` to an
//! expression over names.
//!
//! From loosest to tightest, left to right: or by `+` or `|`; and by `*`, `&` or nothing but white space or adjacency;
//! exclusive or by `^`; any number of `!` before and of `'` after `0`, `1`, a name or a function in parentheses. Liberty
//! leaves the place of `^` open; this order is the project's own. `read_function` is the call to read first: it
//! gives functions that nest and are high 256 at most, so that nothing recurses deeper. `is_function` tells of any text
//! whether it is one. Which attribute counts, and what the names stand for in a cell, is left to the crate above.
#![tactic(auto)]

mod exprs;
mod functions;
mod lows;
mod marks;
mod operators;
mod scans;
mod stops;

pub use exprs::{Expr, Term};
pub use functions::read_function;
pub use scans::is_function;
