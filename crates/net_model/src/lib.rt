//! The model of a synchronous netlist: designs, functions, cycles, runs and timing exceptions, and what they mean.
//!
//! It stands on no other part of the tool but lists. What the tool proves is said in the words of `specs/`: begin with
//! `Netlist` (a sound design), `Cycles` (settled cycles, captures and runs), `Layers` (a start that comes late) and
//! `Judge` (a claim that holds). The calls here copy and evaluate functions, give a register's capture as one function,
//! and say whether a design is sound (`Faults` has the cause of each refusal) and whether a claim fits it (`Fits`);
//! simulation is left to the crate above.
#![tactic(auto)]

mod arguments;
mod capture_funcs;
mod captures;
mod checks;
mod claims;
mod cycles;
mod drivers;
mod faults;
mod fits;
mod functions;
mod invariants;
mod lane_words;
mod late_starts;
mod laws;
mod layers;
mod limits;
mod marks;
mod mentions;
mod netlist;
mod pins;
mod queries;
mod ranges;
mod rows;
mod terns;
mod values;

pub use arguments::Args;
pub use capture_funcs::capture_func;
pub use captures::capture_of;
pub use claims::{Claim, End, PinRef, Start};
pub use cycles::{Cycle, Stimulus};
pub use faults::DesignFault;
pub use functions::{Func, Node};
pub use invariants::{InvClause, StateLit};
pub use lane_words::Lanes;
pub use late_starts::make_layers;
pub use laws::{held_start, late_by_flip, moved_where_path, one_run, some_stimulus, unjudged};
pub use layers::{late_reg_args, layer_pin};
pub use limits::{
    LAYERS, MOST_CYCLES, MOST_DEPTH, MOST_INPUTS, MOST_LAG, MOST_NETS, MOST_OUTPUTS, MOST_PINS,
    MOST_REGISTERS, MOST_RESET_CYCLES, MOST_SETS,
};
pub use netlist::{Design, Fixed, Gate, Reg, RegOut};
pub use pins::{PinSet, is_held};
pub use queries::Phase;
pub use rows::{pin_args, settle_gates};
pub use sdcv_base::{Edge, Kind};
pub use terns::Tern;
pub use values::Value;
