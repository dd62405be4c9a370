//! The words of a line, in both ways: words, numbers and literals, and rows of them that the word 0 ends.
//!
//! A line is read word by word, in one pass. A line that is cut off is told from one that breaks its form: more bytes can
//! mend it. Read `parts.rt` first; `specs/Growth` says what a word that is cut off may grow to, and `specs/Lines` what a
//! reader of a kind of line promises. The kinds of lines themselves are left to the crate above.
#![tactic(auto)]

mod numbers;
mod parts;
mod rows;
mod stops;
mod words;
mod writing;

pub use numbers::number_of;
pub use parts::{take_end, take_lit, take_number, take_word};
pub use rows::{take_hints, take_lits};
pub use stops::{Stop, cut_off};
pub use words::{NextWord, Words};
pub use writing::{push_hints, push_lit, push_lits};
