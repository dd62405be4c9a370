//! The lines of a certificate's text, both ways: each kind of line read, or why a line is none of the kind, and written; and
//! parts of the text: each line where it stands, steps and derivations.
//!
//! Begin with `specs/Kinds`: the words of each kind of line, and which values it can spell. Then `specs/Texts`: texts of a
//! kind, and where bytes stop being the beginning of one. A reader of a part says exactly where they do, whatever part comes
//! next; `proofs/Leading` carries its answer to the whole. What stands after what is left to the crate above.
#![tactic(auto)]

mod derivations;
mod faults;
mod heads;
mod kept;
mod places;
mod sections;
mod standing;
mod steps;
mod writing;

pub use derivations::{push_derivation, take_derivation};
pub use faults::Fault;
pub use heads::{InvHead, read_first, read_inv};
pub use kept::read_kept;
pub use places::{Line, next_line};
pub use sections::{Section, read_section};
pub use standing::{take_first, take_inv, take_kept, take_section};
pub use writing::{push_first, push_inv, push_kept, push_section};
