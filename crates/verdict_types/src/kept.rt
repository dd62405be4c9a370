//! Clauses over register bits that are kept, and those whose query spent its budget.
use net_model::{InvClause, Phase};
use proof_log::Derivation;
use sdcv_base::Seq;

/// Derivations that refute a kept clause's queries: the base queries in the order of their offsets, and the step query.
#[derive(Drop)]
pub struct InvProof {
    pub base: Seq<Derivation>,
    pub step: Derivation,
}

/// A candidate whose query spent its budget: the query is that of the clause at `place` of `against`, at the offset in the
/// base phase and at the depth in the step phase.
#[derive(Drop)]
pub struct InvSpent {
    pub clause: InvClause,
    pub phase: Phase,
    pub offset: usize,
    pub against: Seq<InvClause>,
    pub place: usize,
    pub log: Derivation,
}

/// The clauses that every live cycle of every run meets, by an induction of this depth, each with its derivations at the
/// same place of `proofs`.
#[derive(Drop)]
pub struct InvSet {
    pub depth: usize,
    pub kept: Seq<InvClause>,
    pub proofs: Seq<InvProof>,
    pub spent: Seq<InvSpent>,
}
