//! The commands, as the program carries them out.

use run_options::{Forms, Judging, Proving, Reset};

/// The names of the files that a command reads.
#[derive(Clone, Copy)]
pub struct Texts<'a> {
    pub netlist: &'a str,
    /// The name of a file, or the word `builtin`.
    pub cells: &'a str,
    pub constraints: &'a str,
}

/// How claims are judged, how the netlist and the constraints are read, and how runs begin. The names of no two reset ports are
/// equal, and none is empty; nor is a pattern of what may be cut out, or the name of the clock or the top module.
#[derive(Drop)]
pub struct Options {
    pub judging: Judging,
    pub forms: Forms,
    pub reset: Reset,
}

/// Where the found pairs are saved, how far their proofs are sought, the largest multiplier that is tried, and whether a hold
/// line follows each line.
#[derive(Clone, Copy)]
pub struct Finding<'a> {
    pub out: &'a str,
    pub proving: Proving,
    pub bound: u8,
    pub hold: bool,
}

/// Where the mended script is saved, and how far proofs are sought.
#[derive(Clone, Copy)]
pub struct Mending<'a> {
    pub out: &'a str,
    pub proving: Proving,
    /// The name of a file whose clauses are tried too.
    pub assist: Option<&'a str>,
}

/// What is done with the pairs that are selected.
#[derive(Clone, Copy)]
pub enum Job<'a> {
    Verify {
        out: &'a str,
        json: bool,
        proving: Proving,
        /// The name of a file whose clauses are tried too.
        assist: Option<&'a str>,
    },
    Check {
        cert: &'a str,
    },
    Replay {
        report: &'a str,
        pair: u64,
    },
    /// The monitor of a pair's claim is saved, and the names of its latches where these are asked for. Claims are then judged
    /// without hazards.
    Aiger {
        out: &'a str,
        pair: u64,
        symbols: bool,
    },
}

/// A command that words name.
#[derive(Drop)]
pub enum Command<'a> {
    /// A job over the texts of files.
    Over {
        texts: Texts<'a>,
        options: Options,
        job: Job<'a>,
    },
    /// A search for the multicycle pairs of a netlist.
    Detect {
        texts: Texts<'a>,
        options: Options,
        finding: Finding<'a>,
    },
    /// A verification whose exceptions are written again, with their justified pairs alone.
    Mend {
        texts: Texts<'a>,
        options: Options,
        mending: Mending<'a>,
    },
    /// A verification of generated texts.
    Demo {
        seed: u64,
        size: usize,
    },
}
