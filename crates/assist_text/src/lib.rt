//! Clauses over registers by name, which another program may have found, from their text to the registers of a design: one
//! clause a line, each word of it `NAME=0` or `NAME=1`, and lines of comments, whose first byte is `#`.
//!
//! Read `specs/Clauses.antt` first, which text is which clauses, and `specs/Named.antt`, which registers they speak of. `read_assist`
//! reads a text, `assist_clauses` finds the registers; `specs/Causes.antt` has why a text is refused. Nothing is believed of such a
//! clause: whether it holds in a design is left to the crates above.
#![tactic(auto)]

mod lines;
mod names;
mod registers;
mod words;

pub use assist_types::{Assist, AssistClause, AssistFault};
pub use lines::read_assist;
pub use names::assist_clauses;
