//! Derivations by reverse unit propagation, with hints.
//!
//! A step follows where, from the negation of its clause, each hint but the last is a unit clause
//! that sets its literal, and the last hint is false (Goldberg and Novikov, DATE 2003; the hints
//! as in the LRAT format).
use crate::clauses::Clause;
use sdcv_base::Seq;

/// A clause, and the numbers of the clauses that lead from its negation to a conflict. Numbers
/// count the formula's clauses from 1, then the earlier steps.
#[derive(Debug, Drop)]
pub struct DerivStep {
    pub clause: Clause,
    pub hints: Seq<u64>,
}

/// Steps, each from the formula's clauses and those of the steps before it.
#[derive(Debug, Drop)]
pub struct Derivation {
    pub steps: Seq<DerivStep>,
}
