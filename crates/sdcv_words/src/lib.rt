//! The words of a run, and the command that they name.
//!
//! Words are first read by their places: the name of a command, its positions, then its options, each a word of its own
//! with its value in the next. Words that no command reads so are read with `clap`. Either way they give texts to the
//! arguments of a command, and these are judged by the same rules: numbers in their ranges, a list of values for ports, a list
//! of patterns of references, names of a clock and a module, and a list of names of commands. `command_of` is the call to read
//! first; what is done with a command is left to the crate above. `told` says in words what is wrong with words that name none.
#![tactic(auto)]

mod commands;
mod cuttings;
mod givens;
mod jobs;
mod numbers;
mod options;
mod places;
mod settings;
mod skips;
mod tellings;
mod words;

pub use commands::{Command, Finding, Job, Mending, Options, Texts};
pub use cuttings::netlist_by;
pub use settings::settings_of;
pub use skips::skips_of;
pub use tellings::told;
pub use words::command_of;
