//! The laws of queries: the models of a query's formula are its answers, in both directions, and a query has one formula.
//!
//! What they say is in `Laws` of query_model. Nothing here builds a clause; the proofs stand beside the crates that do.
#![tactic(auto)]

mod laws;

pub use laws::{claim_laws, clause_laws};
