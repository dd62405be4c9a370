//! Clauses over registers by name, as a text gives them, and why a text has none: values alone. What a text is which clauses, and
//! which registers they speak of, is said in `assist_text`.
#![tactic(auto)]

mod clauses;
mod faults;

pub use clauses::{Assist, AssistClause};
pub use faults::AssistFault;
