//! What a flat netlist does over time, whatever the cells do that are cut out of it, and the runs of its design.
//!
//! Read `specs/Behaviours.antt`. `behaves_as_run` is the law: each behaviour of a linked netlist is, cycle by cycle, exactly one run
//! of its design. So what holds in all runs holds of the netlist, whatever a cut cell computes of all that happened before.
//! `proofs/Worked.antt` has a behaviour of two registers beside a cell that is cut out, and its run.
#![tactic(auto)]

mod laws;

pub use laws::behaves_as_run;
