//! The coding of this program's own queries.
ghost use Rattle.std.specs.Prelude.{◌≡◌};
ghost use Rattle.verdicts.specs.Logs as logs;

use query_model::Coding;

/// The coding in which queries are asked, and of which a written certificate speaks.
pub fn own_coding() -> Coding
    ensures { result ≡ logs.own_coding }
{
    Coding::Primes
}
