//! The report of a run as JSON (RFC 8259): one object without spaces, its keys ascending, and a newline.
//!
//! Read `specs/Reports.antt` first: which members the object has. The words in it are those of the printed report.
#![tactic(auto)]

mod commands;
mod netlists;
mod notices;
mod objects;
mod pairs;
mod reports;
mod stimuli;

pub use reports::write_json;
