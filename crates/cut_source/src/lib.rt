//! What is cut out of a netlist that is read wide, before it is linked.
//!
//! Read `cuts.rt` first: `cut` makes of a source the modules below its top module, without the instances that are cut out, and
//! a list of these. `specs/Cuttable.antt` says which instances are cut out, `specs/Items.antt` and `specs/Pins.antt` what is
//! known of each, and `specs/Sources.antt` which modules are left. How the rest is linked is left to the crates above.
#![tactic(auto)]

mod below;
mod cell_items;
mod conns;
mod copies;
mod cuts;
mod cuttable;
mod modules;
mod stub_items;
mod tops;
mod ways;

pub use cuts::cut;
