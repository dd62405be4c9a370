//! What the words of a run set: how a netlist and a script are read, how claims are judged, how runs begin, how far a proof is sought, and the
//! options that a report's header tells.
#![tactic(auto)]

mod forms;
mod judging;
mod netlists;
mod options;
mod proving;
mod resets;

pub use forms::{Forms, ScriptForm};
pub use judging::Judging;
pub use netlists::{Cutting, NetlistForm};
pub use options::RunOptions;
pub use proving::Proving;
pub use resets::Reset;
