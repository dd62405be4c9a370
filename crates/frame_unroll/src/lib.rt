//! What a query asks of its keys, what these read, and which keys it needs: which nets a late start moves, the literal
//! that stands for a net or a pin, which places of a function count, the sites and pairs by which keys are defined, and the keys
//! that are reached from what is asked, numbered.
//!
//! Read `tables`, `subjects` and `moved_nets` first, then `sites` and `pairs`, and `reached_keys` for the needed keys. What it all means is said in
//! query_model's `specs/Reads` and `specs/Formula`.
#![tactic(auto)]

mod asked;
mod conditions;
mod counted_places;
mod drivers;
mod found_keys;
mod frames;
mod gate_tables;
mod gathered;
mod kept;
mod key_pages;
mod key_sets;
mod moved_nets;
mod origins;
mod pairs;
mod places;
mod reached_keys;
mod reads;
mod sites;
mod spans;
mod spreads;
mod starts;
mod subjects;
mod tables;
mod violations;

pub use asked::{claim_asked, clause_asked};
pub use counted_places::capture_places;
pub use drivers::{Driver, base_lit, net_drivers};
pub use frames::Frames;
pub use gate_tables::net_gates;
pub use gathered::{
    Owner, RailAt, bit_lit, capture_lit, late_capture_lit, pin_literals, pin_literals_at, pin_of,
    push_own, start_lit,
};
pub use moved_nets::MovedNets;
pub use origins::has_own;
pub use pairs::{Pair, change_pair, differ_pair, stale_pair, toggle_pair};
pub use places::counts;
pub use reads::{net_lit, pin_lit};
pub use sites::{Rail, Site, bit_site, gate_site, late_gate_site, late_reg_site};
pub use spans::{Span, claim_span, clause_span};
pub use starts::start_nets;
pub use subjects::Subject;
pub use tables::Tables;
