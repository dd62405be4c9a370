//! Which pairs of a script's exceptions are kept when it is mended, and in which groups they are written again.
//!
//! Read `specs/Rows.antt` first: which pairs are kept, and which of them can be written. `specs/Ports.antt` says which starts a command
//! can name, and of which class an end is. `specs/Groups.antt` has the groups: starts that have the same ends stand together, so that a
//! few commands select exactly the pairs. How a group is written is left to the crates above.
#![tactic(auto)]

mod groups;
mod laws;
mod parts;
mod ports;
mod rows;

pub use groups::Group;
pub use laws::groups_are_exact;
pub use parts::{Part, parts_of};
pub use ports::{EndClass, Ports, is_end_class};
pub use rows::Row;
