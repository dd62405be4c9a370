//! Verdicts on claims, kept clauses with their derivations, and the limits of a search, as values.
//!
//! `Forms` of `specs/` says which of them the text of a certificate can spell; what makes a verdict right is said in
//! verdicts. So what prints or reads them stands on these types, and on no law.
#![tactic(auto)]

mod kept;
mod outcomes;

pub use kept::{InvProof, InvSet, InvSpent};
pub use outcomes::{Cause, Limits, Proof, Verdict};
