//! The words for what a command reads besides.
ghost use Rattle.std.specs.Prelude.{◌≡◌, map};
ghost use Rattle.refusal_words.specs.Rows.{seen_row};
ghost use Rattle.refusal_words.specs.Further as spec;

use crate::rows::{Row, Spot};

const ROWS: [Row; 14] = [
    Row {
        head: "refused assist 0 TooLong",
        spot: Spot::Whole,
        cause: "longer than its limit",
        remedy: "split it",
    },
    Row {
        head: "refused assist 1 Syntax",
        spot: Spot::Line,
        cause: "some word is not NAME=0 or NAME=1",
        remedy: "mend the line",
    },
    Row {
        head: "refused assist 2 Twice",
        spot: Spot::Line,
        cause: "the clause names > twice",
        remedy: "drop one",
    },
    Row {
        head: "refused assist 3 Many",
        spot: Spot::Whole,
        cause: "more than { clauses",
        remedy: "leave some out",
    },
    Row {
        head: "refused assist 5 UnknownRegister",
        spot: Spot::Line,
        cause: "> is no register",
        remedy: "take the names of a report",
    },
    Row {
        head: "refused cert 0 TooLong",
        spot: Spot::Whole,
        cause: "longer than its limit",
        remedy: "split it",
    },
    Row {
        head: "rejected 1 Form",
        spot: Spot::Offset,
        cause: "rejected 1 Form @",
        remedy: "take the texts and words of its run",
    },
    Row {
        head: "rejected",
        spot: Spot::Whole,
        cause: "rejected @",
        remedy: "take the texts and words of its run",
    },
    Row {
        head: "refused pair 1 NoPair",
        spot: Spot::Whole,
        cause: "fewer than @ pairs",
        remedy: "take a number of the report",
    },
    Row {
        head: "refused stimulus 0 TooLong",
        spot: Spot::Whole,
        cause: "longer than its limit",
        remedy: "split it",
    },
    Row {
        head: "refused stimulus 1 NoBlock",
        spot: Spot::Whole,
        cause: "no stimulus of this pair",
        remedy: "take a refuted pair",
    },
    Row {
        head: "refused stimulus 2 Form",
        spot: Spot::Line,
        cause: "line @ is none of a stimulus",
        remedy: "take the block as printed",
    },
    Row {
        head: "refused replay 1 Shape",
        spot: Spot::Whole,
        cause: "other numbers of bits",
        remedy: "take the texts and words of its run",
    },
    Row {
        head: "refused replay 2 NotReset",
        spot: Spot::Whole,
        cause: "another value in cycle @",
        remedy: "take the texts and words of its run",
    },
];

/// The rows of clauses, certificates and stimuli.
#[tactic(auto, unfolding(crate::specs::Further::further_rows))]
pub(crate) fn further_rows() -> &'static [Row]
    ensures { map seen_row result.now ≡ spec.further_rows }
{
    &ROWS
}
