//! The words of an SDC text's commands (SDC 2.1, in the words of Tcl): from bytes to pieces, without any variable's value.
//!
//! `Commands` goes through a text command by command, each with its line; it is the type to read first. Brackets stand among
//! the words as marks, so a command is one flat list whatever its nesting. Before that `cleaned` leaves out the carriage
//! returns before newlines, and `original` tells where a byte stood. A command whose words are not wanted is known by its
//! `front` and passed, and takes no memory but that of its longest piece. What a command is, and the values of its words,
//! are left to the crates above.
#![tactic(auto)]

mod blanks;
mod braces;
mod commands;
mod faults;
mod lines;
mod passes;
mod pieces;
mod plain_words;
mod word_lists;
mod words;

pub use commands::Commands;
pub use faults::WordFault;
pub use lines::{cleaned, original};
pub use words::{Piece, RawCommand, Word};
