//! The commands that words may name, each with its positions and its options, and what help says of them.
ghost use Rattle.std.specs.Prelude.{◌≡◌, map};
ghost use Rattle.clap_words.specs.Commands.{command_rows, seen_row};

use crate::commands::Form::{Flag, Needed, Valued};
use crate::rules::ValueRule;

/// What help says of the program.
pub const ABOUT: &str =
    "Prove or refute the timing exceptions of a script, for each register pair that they select";

/// How an option stands in the words.
#[derive(Clone, Copy)]
pub enum Form {
    /// Alone, or not at all.
    Flag,
    /// With a value, or not at all.
    Valued,
    /// With a value, always.
    Needed,
}

/// A position, which help calls by its id.
#[derive(Clone, Copy)]
pub struct PositionRow {
    pub id: &'static str,
    /// What its word has to be. `sdcv_words` judges it.
    pub rule: ValueRule,
    pub sentence: &'static str,
}

/// An option, whose word is its id after `--`.
#[derive(Clone, Copy)]
pub struct OptionRow {
    pub id: &'static str,
    pub form: Form,
    /// What help calls its value. A flag has none.
    pub value: &'static str,
    /// What its value has to be. `sdcv_words` judges it.
    pub rule: ValueRule,
    pub sentence: &'static str,
}

/// A command, with its positions in their order.
#[derive(Clone, Copy)]
pub struct CommandRow {
    pub name: &'static str,
    pub sentence: &'static str,
    pub positions: &'static [PositionRow],
    pub options: &'static [OptionRow],
}

const V: PositionRow = PositionRow {
    id: "V",
    rule: ValueRule::Text,
    sentence: "Structural Verilog netlist",
};

const L: PositionRow = PositionRow {
    id: "L",
    rule: ValueRule::Text,
    sentence: "Liberty file of its cells, or the word builtin",
};

const S: PositionRow = PositionRow {
    id: "S",
    rule: ValueRule::Text,
    sentence: "SDC constraints",
};

const CERT: PositionRow = PositionRow {
    id: "CERT",
    rule: ValueRule::Text,
    sentence: "Certificate that a verification saved",
};

const REPORT: PositionRow = PositionRow {
    id: "REPORT",
    rule: ValueRule::Text,
    sentence: "Report that a verification printed by lines",
};

const PAIR: PositionRow = PositionRow {
    id: "PAIR",
    rule: ValueRule::Number {
        least: 1,
        most: u64::MAX,
    },
    sentence: "Number of a refuted pair in the report",
};

const WATCHED: PositionRow = PositionRow {
    id: "PAIR",
    rule: ValueRule::Number {
        least: 1,
        most: u64::MAX,
    },
    sentence: "Number of a selected pair, as a report counts them",
};

const SEED: PositionRow = PositionRow {
    id: "SEED",
    rule: ValueRule::Number {
        least: 0,
        most: u64::MAX,
    },
    sentence: "Number from which the design is drawn",
};

const SIZE: PositionRow = PositionRow {
    id: "SIZE",
    rule: ValueRule::Number {
        least: 1,
        most: 160,
    },
    sentence: "Count of its blocks, 1 to 160",
};

const OUT: OptionRow = OptionRow {
    id: "out",
    form: Needed,
    value: "CERT",
    rule: ValueRule::Text,
    sentence: "Save the certificate of the justified pairs",
};

const HAZARD: OptionRow = OptionRow {
    id: "hazard",
    form: Flag,
    value: "",
    rule: ValueRule::Text,
    sentence: "Judge captures however the start's change glitches through the gates",
};

const LAG: OptionRow = OptionRow {
    id: "lag",
    form: Valued,
    value: "L",
    rule: ValueRule::Number { least: 0, most: 8 },
    sentence: "Judge a false path at L captures more than the first, 0 to 8 (else 0)",
};

const JSON: OptionRow = OptionRow {
    id: "json",
    form: Flag,
    value: "",
    rule: ValueRule::Text,
    sentence: "Print the report as JSON",
};

const RESET: OptionRow = OptionRow {
    id: "reset",
    form: Valued,
    value: "LIST",
    rule: ValueRule::Ports,
    sentence: "Hold input ports in reset: PORT=0 or PORT=1, parted by commas",
};

const RESET_CYCLES: OptionRow = OptionRow {
    id: "reset-cycles",
    form: Valued,
    value: "N",
    rule: ValueRule::Number { least: 0, most: 64 },
    sentence: "Hold them for N cycles, 0 to 64 (else 1 with --reset, 0 without)",
};

const DEPTH: OptionRow = OptionRow {
    id: "depth",
    form: Valued,
    value: "D",
    rule: ValueRule::Number { least: 0, most: 64 },
    sentence: "Seek proofs by induction up to depth D, 0 to 64 (else 8)",
};

const BUDGET: OptionRow = OptionRow {
    id: "budget",
    form: Valued,
    value: "B",
    rule: ValueRule::Number {
        least: 1,
        most: 10_000_000,
    },
    sentence: "Learn at most B clauses for a query, 1 to 10000000 (else 20000)",
};

const INV_DEPTH: OptionRow = OptionRow {
    id: "inv-depth",
    form: Valued,
    value: "M",
    rule: ValueRule::Number { least: 0, most: 8 },
    sentence: "Seek kept clauses by induction of depth M, 0 to 8 (else 1)",
};

const ASSIST: OptionRow = OptionRow {
    id: "assist",
    form: Valued,
    value: "FILE",
    rule: ValueRule::Text,
    sentence: "Try the clauses of FILE too when clauses are sought",
};

const OUT_SDC: OptionRow = OptionRow {
    id: "out",
    form: Needed,
    value: "SDC",
    rule: ValueRule::Text,
    sentence: "Save the found pairs as SDC",
};

const BOUND: OptionRow = OptionRow {
    id: "bound",
    form: Valued,
    value: "K",
    rule: ValueRule::Number { least: 2, most: 16 },
    sentence: "Try multipliers up to K, 2 to 16 (else 4)",
};

const HOLD: OptionRow = OptionRow {
    id: "hold",
    form: Flag,
    value: "",
    rule: ValueRule::Text,
    sentence: "Judge the hold side of false paths too",
};

const FREE: OptionRow = OptionRow {
    id: "free",
    form: Valued,
    value: "LIST",
    rule: ValueRule::Patterns,
    sentence: "Cut out the cells of these references, by patterns parted by commas, where they can't be modelled",
};

const CLOCK: OptionRow = OptionRow {
    id: "clock",
    form: Valued,
    value: "NAME",
    rule: ValueRule::Name,
    sentence: "Judge the registers of the clock of this name, and cut out those of other clocks",
};

const TOP: OptionRow = OptionRow {
    id: "top",
    form: Valued,
    value: "NAME",
    rule: ValueRule::Name,
    sentence: "Take the module of this name for the top module",
};

const SKIP: OptionRow = OptionRow {
    id: "skip",
    form: Valued,
    value: "LIST",
    rule: ValueRule::Commands,
    sentence: "Pass over the commands of these names, parted by commas, and tell how many",
};

const STRICT: OptionRow = OptionRow {
    id: "strict",
    form: Flag,
    value: "",
    rule: ValueRule::Text,
    sentence: "Judge as for a sign-off, and tell each command whose effect is not judged",
};

const HOLD_LINES: OptionRow = OptionRow {
    id: "hold",
    form: Flag,
    value: "",
    rule: ValueRule::Text,
    sentence: "Save a hold line after each line",
};

const OUT_AIGER: OptionRow = OptionRow {
    id: "out",
    form: Needed,
    value: "FILE",
    rule: ValueRule::Text,
    sentence: "Save the monitor of the pair as AIGER text",
};

const SYMBOLS: OptionRow = OptionRow {
    id: "symbols",
    form: Flag,
    value: "",
    rule: ValueRule::Text,
    sentence: "Name the latches in the text, by a symbol for each",
};

const OUT_MENDED: OptionRow = OptionRow {
    id: "out",
    form: Needed,
    value: "SDC",
    rule: ValueRule::Text,
    sentence: "Save the mended script",
};

const ROWS: [CommandRow; 7] = [
    CommandRow {
        name: "verify",
        sentence: "Judge each register pair that the exceptions select",
        positions: &[V, L, S],
        options: &[
            OUT,
            HAZARD,
            LAG,
            HOLD,
            FREE,
            CLOCK,
            TOP,
            SKIP,
            STRICT,
            JSON,
            RESET,
            RESET_CYCLES,
            DEPTH,
            BUDGET,
            INV_DEPTH,
            ASSIST,
        ],
    },
    CommandRow {
        name: "check",
        sentence: "Check a certificate, without the search that made it",
        positions: &[V, L, S, CERT],
        options: &[
            HAZARD,
            LAG,
            HOLD,
            FREE,
            CLOCK,
            TOP,
            SKIP,
            STRICT,
            RESET,
            RESET_CYCLES,
        ],
    },
    CommandRow {
        name: "replay",
        sentence: "Run the stimulus of a refuted pair again",
        positions: &[V, L, S, REPORT, PAIR],
        options: &[
            HAZARD,
            LAG,
            HOLD,
            FREE,
            CLOCK,
            TOP,
            SKIP,
            STRICT,
            RESET,
            RESET_CYCLES,
        ],
    },
    CommandRow {
        name: "demo",
        sentence: "Verify a generated design, and read no file",
        positions: &[SEED, SIZE],
        options: &[],
    },
    CommandRow {
        name: "detect",
        sentence: "Find the multicycle pairs of a netlist, and save them as SDC",
        positions: &[V, L, S],
        options: &[
            OUT_SDC,
            HAZARD,
            FREE,
            CLOCK,
            TOP,
            SKIP,
            RESET,
            RESET_CYCLES,
            DEPTH,
            BUDGET,
            INV_DEPTH,
            BOUND,
            HOLD_LINES,
        ],
    },
    CommandRow {
        name: "aiger",
        sentence: "Save the claim of a pair as an AIGER text, whose bad literal rises where it is violated",
        positions: &[V, L, S, WATCHED],
        options: &[
            OUT_AIGER,
            SYMBOLS,
            LAG,
            HOLD,
            FREE,
            CLOCK,
            TOP,
            SKIP,
            STRICT,
            RESET,
            RESET_CYCLES,
        ],
    },
    CommandRow {
        name: "mend",
        sentence: "Save the script with the exceptions that are justified alone",
        positions: &[V, L, S],
        options: &[
            OUT_MENDED,
            HAZARD,
            LAG,
            HOLD,
            FREE,
            CLOCK,
            TOP,
            SKIP,
            STRICT,
            RESET,
            RESET_CYCLES,
            DEPTH,
            BUDGET,
            INV_DEPTH,
            ASSIST,
        ],
    },
];

/// The table of the commands.
pub fn rows() -> &'static [CommandRow]
    ensures { map seen_row result.now ≡ command_rows }
{
    &ROWS
}
