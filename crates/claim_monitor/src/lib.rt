//! The monitor of a claim: an and-inverter graph with latches that runs beside a design and tells whether a run of it is caught, that
//! is in a cycle that is bad for a toggle before it (Biere, Heljanko, Wieringa on AIGER 1.9; Higuchi's condition for pairs).
//!
//! Read `watch` (`monitors.rt`) first: it makes the whole graph, and `specs/Watches.antt` says what it is to watch a claim. Then read
//! `laws.rt`: what the bits in front of such a graph show of a run, from its first cycle on, and that they tell whether it is caught.
//! `specs/Fronts.antt` says which variable stands for what.
//!
//! `watch` joins `literals_of` (`cycle_literals.rt`), the literals of a cycle, those of what ends capture (`captures.rt`),
//! `flipped_literal` (`lates.rt`, over `layers.rt`), that of a capture where the start comes late, `bad_literal` (`bads.rt`), which is 1
//! exactly where the bits in front and the cycle tell that the run is caught, and the latches (`histories.rt`). For a claim of the
//! early side one latch more keeps whether the capture of the cycle before would have been another with the start flipped. `write_aiger`
//! (`aiger_texts.rt`) watches a claim and gives the graph as an AIGER text, which `and_graphs` writes. Which claim is written, and
//! where the text is saved, is left to the crate above.
#![tactic(auto)]

mod aiger_texts;
mod bads;
mod captures;
mod cycle_literals;
mod histories;
mod inputs;
mod lates;
mod laws;
mod layers;
mod monitors;
mod nets;
mod sizes;

pub use aiger_texts::{AigerText, write_aiger};
pub use cycle_literals::Literals;
pub use laws::{
    each_has_a_run, front_begins, front_goes_on, front_tells, monitor_watches,
    rises_exactly_on_violating_runs,
};
pub use monitors::watch;
pub use sizes::Sizes;
