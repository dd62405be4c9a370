//! One clock of several: what is left of a flat netlist where the registers and clock gates that the judged clock doesn't come to are
//! cut out of it.
//!
//! Read `netlists.rt` first: `off_clock` cuts them out of a circuit with its leaves, in the words of `link_defs`' `specs/Judged.antt`.
//! `laws.rt` says that one netlist is judged.
#![tactic(auto)]

mod evens;
mod laws;
mod marks;
mod netlists;
mod offs;
mod opens;
mod pins;

pub use laws::{judged_alone, judged_is_one};
pub use netlists::{CutNetlist, off_clock};
