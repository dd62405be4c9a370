//! Of which formulas a version of certificates speaks, and which version is written.
ghost use Rattle.std.specs.Prelude.{◌≡◌};
ghost use Rattle.std.specs.List.{list_any};
ghost use Rattle.cert_values.specs.Versions as versions;

use net_model::InvClause;
use query_model::Coding;

/// The coding of the formulas that the derivations of a version refute.
pub fn coding_of(version: u64) -> Coding
    ensures { result ≡ versions.coding_of version }
{
    if version == 1 {
        Coding::Rows
    } else {
        Coding::Primes
    }
}

/// How many literals a kept clause has at most in version 2.
const MOST: usize = 2;

/// Whether some of the clauses is long.
fn has_long(clauses: &[InvClause]) -> bool
    ensures { result ≡ list_any versions.is_long clauses.now }
{
    clauses.iter().any(|clause| clause.lits.len() > MOST)
}

/// The version in which a certificate with these kept clauses is written.
pub fn version_for(kept: &[InvClause]) -> u64
    ensures { result ≡ versions.version_for kept.now }
{
    if has_long(kept) { 3 } else { 2 }
}
