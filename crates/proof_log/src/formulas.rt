//! Formulas: clauses that are all to be true.
ghost use Rattle.std.specs.Prelude.{◌↔◌, IsTrue, All};
ghost use Rattle.proof_log.specs.Literals.{InVars};
ghost use Rattle.proof_log.specs.Clauses.{IsNormal};

use crate::clauses::is_ascending;
use crate::tables::ClauseTable;

/// Clauses over the variables 1 to `vars`, all to be true.
#[derive(Drop)]
pub struct Formula {
    pub vars: u32,
    pub clauses: ClauseTable,
}

impl Formula {
    ghost use Rattle.proof_log.specs.Formulas.{IsFormula};

    /// Whether there are fewer than 2^31 variables, and each clause is in normal form over them.
    pub fn is_normal(&self) -> bool
        ensures { IsTrue result ↔ IsFormula self.now }
    {
        self.vars < 1 << 31 && are_normal(&self.clauses, self.vars)
    }
}

fn are_normal(clauses: &ClauseTable, vars: u32) -> bool
    ensures { IsTrue result ↔ (All IsNormal clauses.now × All (λ c. All (InVars vars) c) clauses.now) }
{
    for place in 0..clauses.len() {
        if !is_ascending(clauses.clause(place), vars) {
            return false;
        }
    }
    true
}
