//! The report of a run: its options, what is told of the netlist and of the script beside its exceptions, the exceptions with
//! their warnings, a verdict for each selected pair, the stimulus of each pair that is refuted, or may be where what is free
//! gives such bits, and the totals.
//!
//! Read `specs/Reports.antt` first: which lines a report has, in which order. `specs/Words.antt` and `specs/Notices.antt` have
//! the words of a line. `reports.rt` has the call that makes the lines, and `laws.rt` says that the stimuli are found in them
//! again. `specs/Signoff.antt` says what a run for a sign-off leaves open whatever its verdicts are.
#![tactic(auto)]

mod adding;
mod blocks;
mod commands;
mod cuts;
mod laws;
mod lines;
mod notices;
mod outcomes;
mod pairs;
mod reports;
mod rows;
mod signoff;
mod tallies;
mod words;

pub use blocks::bits_text;
pub use commands::warning_line;
pub use laws::report_reads_back;
pub use notices::add_notices;
pub use outcomes::{verdict_word, why_text};
pub use pairs::{ends_text, found_text};
pub use reports::write_report;
pub use rows::{PairRow, row_at};
pub use signoff::leaves_open;
pub use tallies::{Tally, tally_of};
pub use words::{asked_text, claim_text, mode_text, number_text, warning_text, what_text};
