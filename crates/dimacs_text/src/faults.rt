//! Why a text is no formula.
use std::alloc::{AllocError, AllocFailed};
use thiserror::Error;

/// Why a text is no formula. Lines are counted from 1.
#[derive(Debug, Drop, Error)]
pub enum DimacsFault {
    /// A word of a clause on that line is no number from 0 to 2^64 - 1, with or without a `-`.
    #[error("line {0}: a word that is no number")]
    Word(u64),
    /// That line begins as the header does, and is none or the second one.
    #[error("line {0}: no line `p cnf VARS CLAUSES`, or a second one")]
    Header(u64),
    /// A word stands on that line, and no header before it.
    #[error("line {0}: no line `p cnf VARS CLAUSES` before the clauses")]
    Early(u64),
    /// A literal on that line is of a variable above the header's number.
    #[error("line {0}: a variable above the number of variables")]
    Variable(u64),
    /// There is no header and no clause.
    #[error("no line `p cnf VARS CLAUSES`")]
    NoHeader,
    /// The last clause has no 0.
    #[error("the last clause has no 0")]
    Unfinished,
    /// There are other numbers of clauses than the header tells.
    #[error("{0} clauses, where {1} are told")]
    Count(u64, u64),
    #[error("out of memory")]
    Memory,
}

impl From<AllocError> for DimacsFault {
    ghost use Rattle.std.specs.Prelude.{◌≡◌};
    ghost use Rattle.dimacs_text.specs.declared.faults.DimacsFault.TheVariants.{Memory};

    ghost from_gives = { λ _ e. e ≡ Memory };

    fn from(_: AllocError) -> DimacsFault {
        DimacsFault::Memory
    }
}

impl<T: Drop> From<AllocFailed<T>> for DimacsFault {
    ghost use Rattle.std.specs.Prelude.{◌≡◌};
    ghost use Rattle.dimacs_text.specs.declared.faults.DimacsFault.TheVariants.{Memory};

    ghost from_gives = { λ _ e. e ≡ Memory };

    fn from(_: AllocFailed<T>) -> DimacsFault {
        DimacsFault::Memory
    }
}
