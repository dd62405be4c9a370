//! Whether a path of pins leads from a start to an end and meets the through sets in their order, and to which ends
//! paths lead from a start.
//!
//! Read `paths.rt`: `has_path` looks at each gate once, in the design's order, and keeps for each net how many sets a
//! path to it can have met (`specs/Levels.antt`). More sets met are never worse, so the greatest number is enough.
//! `searches.rt`: `Search::ends_from` finds all ends of a start in its cone (`cones.rt`), the nets to which paths lead from
//! it, and at the pins that read them (`arrivals.rt`), without a look at the rest of the design or at other ends.
#![tactic(auto)]

mod aims;
mod arrivals;
mod cones;
mod ends;
mod launches;
mod levels;
mod paths;
mod reaches;
mod readers;
mod searches;
mod sets;

pub use aims::Aims;
pub use paths::has_path;
pub use readers::Readers;
pub use searches::Search;
