//! How pairs are tried.
ghost use Rattle.std.specs.Prelude.{◌≡◌};
ghost use Rattle.mcp_detect.specs.Options.{limits_of};

use verdicts::Limits;

/// Whether the claims allow no glitch either, the greatest depth of a query, how many clauses may be learnt for each, the depth
/// of the induction by which clauses over register bits are kept, and the largest multiplier that is tried.
#[derive(Clone, Copy, PartialEq, Eq)]
pub struct DetectOptions {
    pub hazard: bool,
    pub depth: usize,
    pub budget: u64,
    pub inv_depth: usize,
    pub bound: u8,
}

impl DetectOptions {
    /// How far the search for a verdict goes.
    pub(crate) fn limits(&self) -> Limits
        ensures { result ≡ limits_of self.now }
    {
        Limits {
            depth: self.depth,
            budget: self.budget,
        }
    }
}
