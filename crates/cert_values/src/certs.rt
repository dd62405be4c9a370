//! What a certificate tells.
use net_model::InvClause;
use sdcv_base::Seq;
use verdict_types::{InvProof, Proof};

/// Why the claim of that number holds. Claims count from 1.
#[derive(Drop)]
pub struct PairProof {
    pub number: u64,
    pub proof: Proof,
}

/// Clauses over register bits, each with its derivations at the same place of `proofs`, by an induction of this depth; and
/// the claims that are justified with them. The version says of which formulas the derivations speak.
#[derive(Drop)]
pub struct Cert {
    pub version: u64,
    pub depth: usize,
    pub kept: Seq<InvClause>,
    pub proofs: Seq<InvProof>,
    pub pairs: Seq<PairProof>,
}
