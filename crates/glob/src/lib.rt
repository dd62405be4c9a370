//! Whether a name matches a pattern with `*` and `?`, where `/` joins the parts of a name, and where in a list one can (SDC 2.1,
//! object access).
//!
//! Read `globs.rt`: `matches` lays the pattern on the name piece by piece, between its stars, and goes back to the last
//! star only. What a match is stands in `specs/Match.antt`, and which patterns match but themselves in `specs/Plain.antt`.
//! `indexes.rt`: an `Index` is made once for a list of names; `Index::look` tells where a pattern can match, at once for one without
//! wildcards, or that the list has to be gone through. `owners.rt` tells before which `/` of a pattern one of the names stands: of
//! that name alone can the pattern match what follows.
#![tactic(auto)]

mod globs;
mod indexes;
mod owners;

pub use globs::{is_plain, matches};
pub use indexes::{Index, Look, is_exact};
pub use owners::Owner;
