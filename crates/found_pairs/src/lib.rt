//! The multicycle pairs that are found in a design, as SDC text (SDC 2.1, `set_multicycle_path`), and the lines that tell them.
//!
//! Read `specs/Lines.antt` first: which pairs are written, and the text of them. `laws.rt` and `specs/Laws.antt` say what the
//! text selects: exactly the pairs that it was written for. `specs/Tellings.antt` says which lines a run prints of them, in
//! which order, and the one in which it refuses to try them. How pairs are found, and how a line of the text is written and
//! read, is said in the crates below.
#![tactic(auto)]

mod faults;
mod laws;
mod lines;
mod tellings;
mod told_pairs;
mod totals;

pub use faults::detect_line;
pub use laws::found_is_selected;
pub use lines::{found_text, is_written};
pub use tellings::detected_lines;
