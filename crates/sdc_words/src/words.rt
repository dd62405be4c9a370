//! Words as callers see them.

use sdcv_base::{Name, Seq};

/// A piece of a word's value.
#[derive(Drop)]
pub enum Piece {
    /// These bytes.
    Bytes(Name),
    /// The value of the variable of this name.
    Variable(Name),
}

/// A word of a command, or a bracket around the words of a nested command. Offsets are those of the first byte, from 0.
#[derive(Drop)]
pub enum Word {
    /// A word in braces, in quotes or bare. Its value is that of its pieces, one after the other.
    Text { offset: usize, pieces: Seq<Piece> },
    /// A `[`: the words up to its `Closes` are a nested command, which is one word.
    Opens(usize),
    /// The `]` of the last bracket that is open.
    Closes,
}

/// A command as it is written: the line of its first byte, from 1, and its words.
#[derive(Drop)]
pub struct RawCommand {
    pub line: u64,
    pub words: Seq<Word>,
}
