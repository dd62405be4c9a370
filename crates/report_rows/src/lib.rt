//! A report read back, from its lines or from its JSON, and the stimulus of one of its pairs.
//!
//! Read `read_report` first, and `specs/Lines.antt` and `specs/Members.antt` for what a report is. The words of a line are
//! those that the printed report has; keys of JSON that are not known are passed over. `specs/Totals.antt` says which numbers of
//! rows have to agree. What a report says of a design is not judged here: that its pairs are those of a script is left to the
//! crates above.
#![tactic(auto)]

mod counts;
mod cuts;
mod faults;
mod heads;
mod json_netlists;
mod json_pairs;
mod json_reports;
mod json_scripts;
mod json_told;
mod line_reports;
mod members;
mod netlist_lines;
mod pair_lines;
mod reads;
mod reports;
mod script_lines;
mod stimuli;
mod told_lines;
mod totals;
mod verdicts;

pub use faults::ReportFault;
pub use heads::{Asked, Head};
pub use reads::read_report;
pub use reports::{PairRow, Report, Said, ScriptRow, Told, Word};
pub use stimuli::stimulus_of;
