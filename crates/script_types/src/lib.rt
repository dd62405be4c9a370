//! The constraints of a design as values (SDC 2.1): commands with their lines, exceptions, and the objects that they name.
//!
//! The types alone, with copies of objects, and why a text is no script: what a text means is left to its reader, and what an
//! object stands for in a design to the selection, so that neither of the two stands on the other. `Script` is the type to read
//! first.
#![tactic(auto)]

mod faults;
mod objects;
mod scripts;

pub use faults::SdcFault;
pub use objects::{Class, Object, Query, copy_objects};
pub use scripts::{Checks, Command, Exception, Held, Script, What};
