//! The words of a run as `clap` reads them: the name of a command, and the texts of its arguments.
//!
//! `rows` is the table of the commands with their positions and options, from which the command for `clap` is built.
//! `reading_of` is the call to read first. `told` has it built from the same rows once more, with help and a version, for
//! what is told of words that name nothing. What a text means, and the reading of words by their places, are left to the
//! crate above.
#![tactic(auto)]

mod apps;
mod commands;
mod readings;
mod rules;
mod tellings;

pub use commands::{CommandRow, Form, OptionRow, PositionRow, rows};
pub use readings::{Given, Reading, reading_of};
pub use rules::ValueRule;
pub use tellings::told;
