//! Waves as text: value change dumps of IEEE 1364-2005, clause 18.
//!
//! Read `specs/Waves.antt` first: the text of a wave, from its header to its last cycle. `vcd_text` writes exactly it. What a wave
//! shows is left to the crate above.
#![tactic(auto)]

mod changes;
mod declarations;
mod dumps;
mod lines;
mod scopes;
mod waves;

pub use dumps::vcd_text;
pub use waves::{Wave, mark};
