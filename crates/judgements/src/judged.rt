//! What is found out about some claims.
use sdcv_base::Seq;
use verdicts::{InvSet, Verdict};

/// The kept clauses, and the verdicts in the order of the claims.
#[derive(Drop)]
pub struct Judged {
    pub inv: InvSet,
    pub verdicts: Seq<Verdict>,
}
