//! The words and the group tree of a Liberty text: from bytes to the cells' groups and attributes that count.
//!
//! A text is one `library` group. Of it the direct `cell` groups are kept, of a cell some of its direct groups and
//! attributes (`PartKind`, `AttributeKind`); everything else is passed over, but has to keep to the grammar. Nothing is
//! judged here: what a cell is, and whether a function is one, is left to the crates above. `read_cells` is the call to
//! read first. White space is the same within the text of a function: `skip_space` passes it.
#![tactic(auto)]

mod blanks;
mod faults;
mod groups;
mod kinds;
mod libraries;
mod lists;
mod passes;
mod runs;
mod tokens;
mod values;

pub use blanks::{is_blank, skip_space};
pub use faults::GroupFault;
pub use groups::{Attribute, CellGroup, Part, Value};
pub use kinds::{AttributeKind, PartKind};
pub use libraries::read_cells;
