//! The clauses over register bits that hold in every live cycle of every run, by induction, for some claims.
//!
//! `invariants` lists the clauses near the claims, and those of a text that assists it after them, drops those that fail in a drawn run, and keeps the greatest inductive set of
//! the others, which is that of all of them (`sets.rt`). How clauses are listed, which runs are drawn, and how an inductive set is
//! found, is said in the crates below.
#![tactic(auto)]

mod sets;

pub use sets::invariants;
