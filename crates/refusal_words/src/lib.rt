//! A refusal in words: where in a text it is, why, and what to do.
//!
//! Read `told_refusal` first. All is read off the line that a run printed: its head finds a row of words (`specs/Sources`,
//! `specs/Designs`, `specs/Further`), and what follows the head is put into these. Where a line has an offset, `place_of` says
//! at which line and column of the text that is. Which line is printed, and when, is up to the crates that print it.
#![tactic(auto)]

mod causes;
mod designs;
mod fields;
mod further;
mod numbers;
mod places;
mod rows;
mod sections;
mod sources;
mod tellings;

pub use places::{Place, place_of};
pub use sections::FileNames;
pub use tellings::{file_to_read, told_refusal};
