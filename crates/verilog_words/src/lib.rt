//! The words of structural Verilog (IEEE 1364-2005, clause 3): from bytes to names, words, marks, numbers and constants.
//!
//! Each call takes one token and passes over what stands after it: white space, comments, attributes, and directives
//! where a line begins (`skip_blanks`). A fault lies at the byte at which a token cannot go on. Which tokens make a netlist
//! is left to the crate above.
#![tactic(auto)]

mod blanks;
mod constants;
mod faults;
mod marks;
mod names;
mod numbers;
mod words;

pub use blanks::skip_blanks;
pub use constants::take_constant;
pub use faults::SyntaxFault;
pub use marks::{bump, deep, expect_mark, expect_open, is_next, opens_list, refused, try_pass};
pub use names::{
    begins_name, expect_word, has_word, identifier, next_word, skip_identifier, take_name, try_word,
};
pub use netlist_types::PrimKind;
pub use numbers::{begins_number, take_number};
pub use words::{Word, word_of};
