//! What the words for values have to be.
use std::fmt;
use std::fmt::{Display, Formatter};

/// The rule of a value.
#[derive(Clone, Copy)]
pub enum ValueRule {
    /// Any text.
    Text,
    /// A number, of decimal digits alone and at most twenty of them.
    Number { least: u64, most: u64 },
    /// A list of values for ports.
    Ports,
    /// A list of names of commands.
    Commands,
    /// A list of patterns of references.
    Patterns,
    /// The name of a clock or a module.
    Name,
}

impl Display for ValueRule {
    fn fmt<W: fmt::Write>(&self, f: &mut Formatter<W>) -> fmt::Result {
        match *self {
            ValueRule::Text => f.write_str("any text"),
            ValueRule::Number { least, most } => {
                write!(
                    f,
                    "a number from {least} to {most}, of digits alone and at most 20"
                )
            }
            ValueRule::Ports => {
                f.write_str("PORT=0 or PORT=1, parted by commas, each port once")
            }
            ValueRule::Commands => {
                f.write_str("names of commands, parted by commas, and none that a run reads itself")
            }
            ValueRule::Patterns => {
                f.write_str(
                    "patterns of references, parted by commas, none of them empty and no - at the start",
                )
            }
            ValueRule::Name => f.write_str("a name, which is not empty and has no - at its start"),
        }
    }
}
