//! The text of a run that violates a claim: its inputs, start, end and captures by cycles, and what of the judged capture is
//! late.
//!
//! Read `show` first: its text is that of `specs/Shows.antt`, made of values that are those of the run (`specs/Shown.antt`).
//! `tables.rt` lays out rows and columns, and knows no run. Which run it is, is said by the crate below; whose pair it is, by
//! the caller.
//!
//! `paths.rt` has a path of nets that carries a late value from the start of a claim to its end, in one cycle. It walks back
//! from the end over the layers of `net_model`, and knows no run and no name: `carried_path` answers in the words of `Paths` (a
//! path that meets the through sets) and `Layers` (a net that is late in a layer).
#![tactic(auto)]

mod captures;
mod dont_cares;
mod headings;
mod late_cycles;
mod late_layers;
mod lates;
mod named_paths;
mod paths;
mod pieces;
mod rows;
mod runs;
mod shows;
mod sources;
mod states;
mod tables;
mod values;
mod watches;
mod zeros;

pub use headings::{Heading, Told};
pub use shows::show;
