//! What every other crate stands on: lists and names as contracts see them, a cursor over a text, numbers in decimal
//! digits, the kinds and edges of exceptions, values set for ports, and the host through which a run reads, prints and saves.
//!
//! Read `hosts.rt` first: what a run may do outside, and what is known of it afterwards.
#![tactic(auto)]

mod cursors;
mod decimals;
mod hosts;
mod kinds;
mod limits;
mod mem_hosts;
mod names;
mod seqs;
mod settings;

pub use cursors::Cursor;
pub use decimals::{push_decimal, read_decimal};
pub use hosts::{Host, HostFault, ReadFault};
pub use kinds::{Edge, Kind};
pub use limits::LimitName;
pub use mem_hosts::{Fail, FileRec, MemHost};
pub use names::Name;
pub use seqs::Seq;
pub use settings::Setting;
