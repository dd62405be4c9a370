//! The words for texts that are not read.
ghost use Rattle.std.specs.Prelude.{◌≡◌, map};
ghost use Rattle.refusal_words.specs.Rows.{seen_row};
ghost use Rattle.refusal_words.specs.Sources as spec;

use crate::rows::{Row, Spot};

const ROWS: [Row; 18] = [
    Row {
        head: "refused verilog 0 TooLong",
        spot: Spot::Whole,
        cause: "longer than its limit",
        remedy: "split it",
    },
    Row {
        head: "refused verilog 1 Syntax",
        spot: Spot::Offset,
        cause: "not of the grammar, or declared nowhere",
        remedy: "mend the text there",
    },
    Row {
        head: "refused verilog 2 Unsupported",
        spot: Spot::Offset,
        cause: "> is not read",
        remedy: "synthesise or cut it",
    },
    Row {
        head: "refused verilog 3 TwiceName",
        spot: Spot::Whole,
        cause: "@ stands twice",
        remedy: "rename one",
    },
    Row {
        head: "refused verilog 4 Width",
        spot: Spot::Offset,
        cause: "two sides of different widths",
        remedy: "give both as many bits, or cut the macro",
    },
    Row {
        head: "refused verilog 6 Deep",
        spot: Spot::Offset,
        cause: "too deep",
        remedy: "write it flat",
    },
    Row {
        head: "refused liberty 0 TooLong",
        spot: Spot::Whole,
        cause: "longer than its limit",
        remedy: "split it",
    },
    Row {
        head: "refused liberty 1 Syntax",
        spot: Spot::Offset,
        cause: "not of the grammar",
        remedy: "close what stands open",
    },
    Row {
        head: "refused liberty 2 Function",
        spot: Spot::Offset,
        cause: "no Boolean function",
        remedy: "write it with ! & | ^ and parentheses",
    },
    Row {
        head: "refused liberty 3 TwiceCell",
        spot: Spot::Whole,
        cause: "the cell @ stands twice",
        remedy: "drop one",
    },
    Row {
        head: "refused liberty 5 Deep",
        spot: Spot::Offset,
        cause: "too deep",
        remedy: "split it",
    },
    Row {
        head: "refused sdc 0 TooLong",
        spot: Spot::Whole,
        cause: "longer than its limit",
        remedy: "split it",
    },
    Row {
        head: "refused sdc 1 Syntax",
        spot: Spot::Offset,
        cause: "words or lists break here",
        remedy: "close or part them",
    },
    Row {
        head: "refused sdc 2 UnknownCommand",
        spot: Spot::Line,
        cause: "no command > is read",
        remedy: "leave it out",
    },
    Row {
        head: "refused sdc 3 UnknownVariable",
        spot: Spot::Line,
        cause: "> is set nowhere before",
        remedy: "set it, or write \\$",
    },
    Row {
        head: "refused sdc 4 BadOption",
        spot: Spot::Line,
        cause: "> is one word too many, or lacks one",
        remedy: "see the lists",
    },
    Row {
        head: "refused sdc 5 BadNumber",
        spot: Spot::Line,
        cause: "the number >",
        remedy: "a multiplier is 1 to 16, a case value 0 or 1",
    },
    Row {
        head: "refused sdc 7 Deep",
        spot: Spot::Offset,
        cause: "too deep",
        remedy: "nest less deep",
    },
];

/// The rows of netlists, cells and constraints.
#[tactic(auto, unfolding(crate::specs::Sources::text_rows))]
pub(crate) fn text_rows() -> &'static [Row]
    ensures { map seen_row result.now ≡ spec.text_rows }
{
    &ROWS
}
