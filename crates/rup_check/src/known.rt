//! The clauses that a hint may name.
ghost use Rattle.std.specs.Prelude.{◌≡◌, None, Some, MatchOption};
ghost use Rattle.proof_log.specs.Derivations.{clause_named, known_clauses};

use proof_log::{ClauseTable, DerivStep, Lit};

/// The clause of that number: the formula's count from 1, then the earlier steps'.
pub fn clause_at<'a>(
    formula: &'a ClauseTable,
    earlier: &'a [DerivStep],
    hint: u64,
) -> Option<&'a [Lit]>
    ensures { MatchOption result
        (clause_named (known_clauses formula.now earlier.now) hint ≡ None)
        (λ c. clause_named (known_clauses formula.now earlier.now) hint ≡ Some c.now) }
{
    if hint == 0 {
        return None;
    }
    let place = (hint - 1) as usize;
    if place < formula.len() {
        return Some(formula.clause(place));
    }
    let later = place - formula.len();
    if later < earlier.len() {
        return Some(earlier[later].clause.as_slice());
    }
    None
}
