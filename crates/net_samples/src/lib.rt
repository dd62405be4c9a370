//! Sample designs and queries, for the tests of other crates.
//!
//! A design is written as a list of parts: how many nets it has, gates with their functions, registers with their
//! controls. A query is a list of parts too, that change a plain false path from register 0 to register 1. `samples.rt`
//! has the designs that several crates' tests take. What they are is said in their comments alone: a test checks that a
//! sample is sound before it goes on.
#![tactic(auto)]

mod cases;
mod parts;
mod samples;

pub use cases::{Ask, Case, Lits, case_of};
pub use parts::{Controls, Form, Out, Part, design};
pub use samples::{
    BOTH, CELL, CHAIN, CLEAR, FLIPS, FORK, GATES, GLITCHING_PAIR, KEEPS, LOOP, PORTS, RESET,
    RESET_FIRST, TWO,
};
