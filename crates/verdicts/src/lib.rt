//! What makes verdicts on claims and kept clauses right, and the laws of induction.
//!
//! Begin with `specs/`: `Offsets` (at which offsets runs and stretches are violated), `Inductive` (clauses over register
//! bits that hold in every live cycle), `Logs` (derivations from a query's formula), `Verdicts` (what each verdict says),
//! `Kept` (what a set of kept clauses says) and `Certified` (what derivations alone show). The values themselves are those of
//! verdict_types. Nothing here searches: crates above find verdicts, and what is accepted of a certificate rests on this
//! crate and on no search.
#![tactic(auto)]

mod codings;
mod judged;
mod laws;

pub use codings::own_coding;
pub use judged::{is_held_start, is_judged};
pub use laws::{
    always_met, claim_certified, holds_at, holds_by_induction, justified, kept_certified,
    union_inductive,
};
pub use verdict_types::{Cause, InvProof, InvSet, InvSpent, Limits, Proof, Verdict};
