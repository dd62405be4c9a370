//! The rows of a report.
use crate::heads::Head;
use sdcv_base::{Name, Seq};

/// What a report says of a pair.
#[derive(Clone, Copy, Debug, Drop, PartialEq, Eq)]
pub enum Word {
    Justified,
    Refuted,
    Undecided,
}

/// A row on what is told of a netlist, and of a script beside its exceptions.
#[derive(Drop)]
pub enum Told {
    /// The top module goes by this name.
    Top(Name),
    /// The clock that is judged goes by this name.
    Clock(Name),
    /// Cells of this reference are cut out, so many; a path may lead through them where the last says so.
    Cut(Name, u64, bool),
    /// Commands of this name are passed over, so many.
    Skipped(Name, u64),
    /// The command that begins at this line of the script, by its name, is not judged.
    Unjudged(u64, Name),
    /// So many false paths have a hold side that is not judged.
    HoldSides(u64),
}

/// What the lines of an exception say of it.
#[derive(Drop)]
pub enum Said {
    /// What it does (`false`, `multi 2 rise`, `hold`, `aside -rise`), and of how many pairs it claims that.
    Does(Name, u64),
    /// A warning on one of its patterns.
    Warns(Name),
}

/// A row on an exception: its number in the script, from 1, and the line where it stands there.
#[derive(Drop)]
pub struct ScriptRow {
    pub command: u64,
    pub line: u64,
    pub said: Said,
}

/// The row of a pair. Pairs are numbered from 1, in the order of the rows.
#[derive(Drop)]
pub struct PairRow {
    pub number: u64,
    /// The number of the exception that selects it.
    pub command: u64,
    /// What is claimed: `false` or `multi 2`, and with an edge of the start `multi 2 rise`.
    pub kind: Name,
    pub start: Name,
    pub end: Name,
    pub verdict: Word,
    /// Why the verdict is that, as `depth 0` or `offset 1`.
    pub why: Name,
}

/// A report: what its first line says, and its rows: on what is told beside the exceptions, on these, and on the pairs.
#[derive(Drop)]
pub struct Report {
    pub head: Head,
    pub told: Seq<Told>,
    pub script: Seq<ScriptRow>,
    pub pairs: Seq<PairRow>,
}
