//! The line that a run prints for each refusal of its texts: where it was refused, the number of the cause, its name, and
//! what it speaks of.
//!
//! A byte of a name or word outside 32 to 126 is shown as `?`. Want of memory has no line. When each cause comes is up to
//! the crates that tell it.
#![tactic(auto)]

mod designs;
mod shapes;
mod sources;

pub use designs::{expand_line, link_line};
pub use sources::{Origin, assist_line, liberty_line, sdc_line, too_long_line, verilog_line};
