//! An SDC text in pieces: the bytes of its commands, and the blanks, ends of commands and comments between them, so that commands
//! can be written anew in their places.
//!
//! Read `specs/Pieces.antt` first: what the pieces of a text are, and the text with other bodies. `rewritten` is the call. What a
//! command says is left to the crates that read it.
#![tactic(auto)]

mod rewriting;

pub use rewriting::rewritten;
