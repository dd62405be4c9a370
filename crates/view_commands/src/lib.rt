//! What the commands that show a report print or save, from the texts and the words: no file is read or written here.
//!
//! Read `groups`, `gate`, `gate_with`, `diff`, `bits`, `shown` and `waved`: each gives its command's text, or the `Stop` with
//! the line and the status of a program that has none. What the texts are is said in `specs/`: `Reports` and `Gates` for a report
//! alone, `Pairs` and `Runs` for the run that violates a pair. How words are spelled, in which order files are read and where a text
//! goes, is left to the program.
#![tactic(auto)]

mod differences;
mod forms;
mod gates;
mod lines;
mod pairs;
mod reports;
mod resets;
mod runs;
mod stops;
mod views;
mod words;

pub use accepted_lists::Day;
pub use differences::{Difference, diff};
pub use forms::{form_of, names_of, netlist_of};
pub use gates::{Gated, gate, gate_with, today_of};
pub use reports::{NamedText, ReadReport, groups, report_of};
pub use resets::reset_of;
pub use stops::Stop;
pub use views::{bits, shown, waved};
pub use words::{PairWords, ResetWords};
