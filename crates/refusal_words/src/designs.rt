//! The words for texts that are read and say nothing together.
ghost use Rattle.std.specs.Prelude.{◌≡◌, map};
ghost use Rattle.refusal_words.specs.Rows.{seen_row};
ghost use Rattle.refusal_words.specs.Designs as spec;

use crate::rows::{Row, Spot};

const ROWS: [Row; 24] = [
    Row {
        head: "refused link 1 UnknownCell",
        spot: Spot::Whole,
        cause: "@ is no module, and no cell of $",
        remedy: "give the library that has it, add the module or cut the cell",
    },
    Row {
        head: "refused link 2 UnsupportedCell",
        spot: Spot::Whole,
        cause: "the cell @ can't be modelled",
        remedy: "cut or replace it",
    },
    Row {
        head: "refused link 3 UnknownPin",
        spot: Spot::Whole,
        cause: "no pin @",
        remedy: "take the netlist's own library",
    },
    Row {
        head: "refused link 4 OpenInput",
        spot: Spot::Whole,
        cause: "nothing is connected to @",
        remedy: "tie it",
    },
    Row {
        head: "refused link 5 Undriven",
        spot: Spot::Whole,
        cause: "nothing drives @",
        remedy: "drive or tie it",
    },
    Row {
        head: "refused link 6 ManyDrivers",
        spot: Spot::Whole,
        cause: "@ has two drivers",
        remedy: "leave one",
    },
    Row {
        head: "refused link 7 Loop",
        spot: Spot::Whole,
        cause: "@ is on a loop of gates",
        remedy: "break the loop",
    },
    Row {
        head: "refused link 8 NotTheClock",
        spot: Spot::Whole,
        cause: "@'s clock pin is not of the judged clock",
        remedy: "name its clock, or cut it",
    },
    Row {
        head: "refused link 9 ClockAsData",
        spot: Spot::Whole,
        cause: "the clock's net @ is read as data",
        remedy: "leave it out",
    },
    Row {
        head: "refused link 10 Recursive",
        spot: Spot::Whole,
        cause: "@ holds itself",
        remedy: "mend the hierarchy",
    },
    Row {
        head: "refused link 11 NameClash",
        spot: Spot::Whole,
        cause: "two things have the name @",
        remedy: "rename one",
    },
    Row {
        head: "refused link 12 NoTop",
        spot: Spot::Whole,
        cause: "@ modules are instantiated by no other",
        remedy: "keep one top",
    },
    Row {
        head: "refused link 13 Limit",
        spot: Spot::Whole,
        cause: "more than } <",
        remedy: "verify a block",
    },
    Row {
        head: "refused link 14 BadSetting",
        spot: Spot::Whole,
        cause: "@ is no data input bit",
        remedy: "write each bit's name",
    },
    Row {
        head: "refused expand 1 TwoClocks",
        spot: Spot::Line,
        cause: "clocks on lines < and >",
        remedy: "judge one, cut the other",
    },
    Row {
        head: "refused expand 2 ClockNotPort",
        spot: Spot::Line,
        cause: "the clock is not on one input port",
        remedy: "name the port",
    },
    Row {
        head: "refused expand 3 CaseTwice",
        spot: Spot::Line,
        cause: "two values, on lines < and >",
        remedy: "drop one",
    },
    Row {
        head: "refused expand 4 CaseOnReset",
        spot: Spot::Line,
        cause: "> is a reset too",
        remedy: "drop one",
    },
    Row {
        head: "refused expand 5 CaseOnPin",
        spot: Spot::Line,
        cause: "> is no input port",
        remedy: "name input ports",
    },
    Row {
        head: "refused expand 6 Limit",
        spot: Spot::Whole,
        cause: "more than } <",
        remedy: "split the constraints",
    },
    Row {
        head: "refused expand 8 NoClock",
        spot: Spot::Whole,
        cause: "no clock @ has a source",
        remedy: "name a clock of the script",
    },
    Row {
        head: "refused expand 9 Generated",
        spot: Spot::Line,
        cause: "the generated clock is not at a register or a cut cell",
        remedy: "create it there",
    },
    Row {
        head: "refused detect 1 Limit",
        spot: Spot::Whole,
        cause: "more than } <",
        remedy: "split the constraints",
    },
    Row {
        head: "refused mend 1 Unread",
        spot: Spot::Whole,
        cause: "the mended text is not read as meant",
        remedy: "tell the project, with the three texts",
    },
];

const TOP: [Row; 1] = [Row {
    head: "refused link 14 BadSetting",
    spot: Spot::Whole,
    cause: "@ is no module",
    remedy: "name a module",
}];

/// The rows of designs and selections.
#[tactic(auto, unfolding(crate::specs::Designs::design_rows))]
pub(crate) fn design_rows() -> &'static [Row]
    ensures { map seen_row result.now ≡ spec.design_rows }
{
    &ROWS
}

/// The row of a word that names no top module.
#[tactic(auto, unfolding(crate::specs::Designs::top_rows))]
pub(crate) fn top_rows() -> &'static [Row]
    ensures { map seen_row result.now ≡ spec.top_rows }
{
    &TOP
}
