//! What the readers of texts share: the bytes at the front of a text, and tables of names.
//!
//! A reader's definition is a function of the text that is left: it gives a value and the text after it, or nothing
//! (`specs/Reads.antt`), or the fault that the text has (`specs/Rules.antt`). How an answer stands to that is said there
//! too, once for all readers, each of which says of its own faults where they fail. Which words, comments and marks a
//! language has is up to each reader.
#![tactic(auto)]

mod bytes;
mod fronts;
mod nesting;
mod tables;

pub use bytes::{is_letter, is_word, word_len};
pub use fronts::{after, byte_at, closed_by, has_two, upto};
pub use nesting::MOST_NESTED;
pub use tables::{NameTable, Named};
