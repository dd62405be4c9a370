//! How the clauses that are kept for all claims are sought.
use net_model::InvClause;

/// The depth of the induction, and clauses of any length that are tried after those near the claims.
#[derive(Clone, Copy)]
pub struct InvSearch<'a> {
    pub depth: usize,
    pub extra: &'a [InvClause],
}
