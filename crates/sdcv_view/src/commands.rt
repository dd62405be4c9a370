//! The words of the program: a table of its commands, read by `clap`.
use crate::version::VERSION;
use clap::builder::ValueParser;
use clap::{Arg, ArgAction, ArgMatches, Command, Error};
use std::alloc::{AllocError, Global};
use view_commands::{PairWords, ResetWords};

/// The files of a design, what may be cut out of it, its clock and its top module, which commands of its constraints are passed
/// over, and how it is reset.
#[derive(Clone, Copy)]
pub struct DesignWords<'a> {
    pub netlist: &'a str,
    pub cells: &'a str,
    pub constraints: &'a str,
    /// The list of `--free`.
    pub free: Option<&'a str>,
    /// The name of `--clock`.
    pub clock: Option<&'a str>,
    /// The name of `--top`.
    pub top: Option<&'a str>,
    /// The list of `--skip`.
    pub skip: Option<&'a str>,
    pub reset: ResetWords<'a>,
}

/// A pair of a report, and the files of its design.
#[derive(Clone, Copy)]
pub struct RunWords<'a> {
    pub design: DesignWords<'a>,
    pub pair: PairWords<'a>,
}

/// A report, the file of an accepted list, and the word of the day.
#[derive(Clone, Copy)]
pub struct GateWords<'a> {
    pub report: &'a str,
    pub accepted: Option<&'a str>,
    pub today: Option<&'a str>,
}

/// What the words ask for.
#[derive(Clone, Copy)]
pub enum Asked<'a> {
    Groups { report: &'a str, csv: bool },
    Gate(GateWords<'a>),
    Diff { old: &'a str, new: &'a str },
    Bits(DesignWords<'a>),
    Show(RunWords<'a>),
    Wave { run: RunWords<'a>, out: &'a str },
}

/// How an argument stands in the words.
#[derive(Clone, Copy)]
enum Form {
    /// In its place, always.
    Place,
    /// Alone, after `--`, or not at all.
    Flag,
    /// With a value, after `--`, or not at all.
    Valued,
    /// With a value, after `--`, always.
    Needed,
}

/// What the value of an argument is: any text, or a number in this range.
#[derive(Clone, Copy)]
enum Rule {
    Text,
    Number(u64, u64),
}

/// An argument, what help calls its value, and what help says of it.
#[derive(Clone, Copy)]
struct ArgRow {
    id: &'static str,
    form: Form,
    value: &'static str,
    rule: Rule,
    sentence: &'static str,
}

/// A command with its arguments, those with a place in their order.
#[derive(Clone, Copy)]
struct CommandRow {
    name: &'static str,
    sentence: &'static str,
    args: &'static [ArgRow],
}

const V: ArgRow = ArgRow {
    id: "V",
    form: Form::Place,
    value: "V",
    rule: Rule::Text,
    sentence: "The netlist (Verilog)",
};

const L: ArgRow = ArgRow {
    id: "L",
    form: Form::Place,
    value: "L",
    rule: Rule::Text,
    sentence: "The cells (Liberty), or builtin",
};

const S: ArgRow = ArgRow {
    id: "S",
    form: Form::Place,
    value: "S",
    rule: Rule::Text,
    sentence: "The constraints (SDC)",
};

const FREE: ArgRow = ArgRow {
    id: "free",
    form: Form::Valued,
    value: "LIST",
    rule: Rule::Text,
    sentence: "Cut out the cells of these references, by patterns parted by commas, where they can't be modelled",
};

const CLOCK: ArgRow = ArgRow {
    id: "clock",
    form: Form::Valued,
    value: "NAME",
    rule: Rule::Text,
    sentence: "Judge the registers of the clock of this name, and cut out those of other clocks",
};

const TOP: ArgRow = ArgRow {
    id: "top",
    form: Form::Valued,
    value: "NAME",
    rule: Rule::Text,
    sentence: "Take the module of this name for the top module",
};

const SKIP: ArgRow = ArgRow {
    id: "skip",
    form: Form::Valued,
    value: "LIST",
    rule: Rule::Text,
    sentence: "Pass over the commands of these names, parted by commas",
};

const RESET: ArgRow = ArgRow {
    id: "reset",
    form: Form::Valued,
    value: "LIST",
    rule: Rule::Text,
    sentence: "Hold input ports in reset: PORT=0 or PORT=1, parted by commas",
};

const RESET_CYCLES: ArgRow = ArgRow {
    id: "reset-cycles",
    form: Form::Valued,
    value: "N",
    rule: Rule::Number(0, 64),
    sentence: "Hold them for N cycles, 0 to 64 (else 1 with --reset, 0 without)",
};

const REPORT: ArgRow = ArgRow {
    id: "REPORT",
    form: Form::Place,
    value: "REPORT",
    rule: Rule::Text,
    sentence: "A report of sdcv verify, by lines or with --json",
};

const OLD: ArgRow = ArgRow {
    id: "OLD",
    form: Form::Place,
    value: "OLD",
    rule: Rule::Text,
    sentence: "A report of sdcv verify, by lines or with --json",
};

const NEW: ArgRow = ArgRow {
    id: "NEW",
    form: Form::Place,
    value: "NEW",
    rule: Rule::Text,
    sentence: "A report that was made later",
};

const PAIR: ArgRow = ArgRow {
    id: "PAIR",
    form: Form::Place,
    value: "PAIR",
    rule: Rule::Number(1, u64::MAX),
    sentence: "The number of a pair that is refuted or undecided free",
};

const ACCEPTED: ArgRow = ArgRow {
    id: "accepted",
    form: Form::Valued,
    value: "FILE",
    rule: Rule::Text,
    sentence: "Leave out the pairs and the notes that the list in FILE accepts",
};

const TODAY: ArgRow = ArgRow {
    id: "today",
    form: Form::Valued,
    value: "DAY",
    rule: Rule::Text,
    sentence: "Pass over the entries of the list whose last day is before DAY, as 2027-06-30",
};

const CSV: ArgRow = ArgRow {
    id: "csv",
    form: Form::Flag,
    value: "",
    rule: Rule::Text,
    sentence: "Print comma-separated values",
};

const OUT: ArgRow = ArgRow {
    id: "out",
    form: Form::Needed,
    value: "FILE",
    rule: Rule::Text,
    sentence: "Save the wave as FILE",
};

const ROWS: [CommandRow; 6] = [
    CommandRow {
        name: "groups",
        sentence: "Print a report by groups: pairs that differ in the indices of their names alone",
        args: &[REPORT, CSV],
    },
    CommandRow {
        name: "gate",
        sentence: "Print what of a report stops a build; the status is 0 where nothing does, else 1",
        args: &[REPORT, ACCEPTED, TODAY],
    },
    CommandRow {
        name: "diff",
        sentence: "Print how a report differs from an older one; the status is 0 where it does not, else 1",
        args: &[OLD, NEW],
    },
    CommandRow {
        name: "bits",
        sentence: "Print which bit of a stimulus is which register or input",
        args: &[V, L, S, FREE, CLOCK, TOP, SKIP, RESET, RESET_CYCLES],
    },
    CommandRow {
        name: "show",
        sentence: "Print the run that violates a pair by cycles, and what of it is late",
        args: &[
            V,
            L,
            S,
            FREE,
            CLOCK,
            TOP,
            SKIP,
            RESET,
            RESET_CYCLES,
            REPORT,
            PAIR,
        ],
    },
    CommandRow {
        name: "wave",
        sentence: "Save the run that violates a pair as a value change dump",
        args: &[
            V,
            L,
            S,
            FREE,
            CLOCK,
            TOP,
            SKIP,
            RESET,
            RESET_CYCLES,
            REPORT,
            PAIR,
            OUT,
        ],
    },
];

fn parser_of<'a>(rule: Rule) -> ValueParser<'a> {
    match rule {
        Rule::Text => ValueParser::string(),
        Rule::Number(least, most) => ValueParser::unsigned(least, most),
    }
}

fn valued<'a>(arg: Arg<'a>, row: ArgRow) -> Arg<'a> {
    arg.value_name(row.value)
        .value_parser(parser_of(row.rule))
        .action(ArgAction::Set)
}

fn arg_of<'a>(alloc: Global, row: ArgRow) -> Arg<'a> {
    let arg = Arg::new(alloc, row.id).help(row.sentence);
    match row.form {
        Form::Place => valued(arg.required(true), row),
        Form::Flag => arg.long(row.id).action(ArgAction::SetTrue),
        Form::Valued => valued(arg.long(row.id), row),
        Form::Needed => valued(arg.long(row.id).required(true), row),
    }
}

fn subcommand<'a>(alloc: Global, row: CommandRow) -> Result<Command<'a>, AllocError> {
    let mut command = Command::new(alloc, row.name).about(row.sentence);
    for arg in row.args {
        command = command.arg(arg_of(alloc, *arg))?;
    }
    Ok(command)
}

// The program with its name and its version, and no command yet.
fn bare<'a>(alloc: Global) -> Result<Command<'a>, AllocError> {
    Command::new(alloc, "sdcv_view")
        .no_binary_name(true)
        .version(VERSION)
        .about("Show a report of sdcv, the bits of a stimulus, and the run that violates a pair")
        .arg_required_else_help(true)
        .subcommand_required(true)
        .bin_name("sdcv_view")
}

fn whole<'a>(alloc: Global) -> Result<Command<'a>, AllocError> {
    let mut command = bare(alloc)?;
    for row in &ROWS {
        let sub = subcommand(alloc, *row)?;
        command = command.subcommand(sub)?;
    }
    Ok(command)
}

// A required argument, which is there.
fn given<'a>(matches: &ArgMatches<'a>, id: &str) -> &'a str {
    matches.get_str(id).unwrap_or("")
}

fn design_of<'a>(matches: &ArgMatches<'a>) -> DesignWords<'a> {
    DesignWords {
        netlist: given(matches, "V"),
        cells: given(matches, "L"),
        constraints: given(matches, "S"),
        free: matches.get_str("free"),
        clock: matches.get_str("clock"),
        top: matches.get_str("top"),
        skip: matches.get_str("skip"),
        reset: ResetWords {
            ports: matches.get_str("reset"),
            cycles: matches.get_str("reset-cycles"),
        },
    }
}

fn run_of<'a>(matches: &ArgMatches<'a>) -> RunWords<'a> {
    RunWords {
        design: design_of(matches),
        pair: PairWords {
            report: given(matches, "REPORT"),
            pair: matches.get_one::<u64>("PAIR").unwrap_or(0),
        },
    }
}

// What the matches of a subcommand ask for.
fn asked_of<'a>(name: &str, matches: &ArgMatches<'a>) -> Asked<'a> {
    match name {
        "groups" => Asked::Groups {
            report: given(matches, "REPORT"),
            csv: matches.get_flag("csv"),
        },
        "diff" => Asked::Diff {
            old: given(matches, "OLD"),
            new: given(matches, "NEW"),
        },
        "bits" => Asked::Bits(design_of(matches)),
        "show" => Asked::Show(run_of(matches)),
        "wave" => Asked::Wave {
            run: run_of(matches),
            out: given(matches, "out"),
        },
        _ => Asked::Gate(GateWords {
            report: given(matches, "REPORT"),
            accepted: matches.get_str("accepted"),
            today: matches.get_str("today"),
        }),
    }
}

// What the matches of the program ask for.
fn asked_in<'a>(matches: &ArgMatches<'a>) -> Asked<'a> {
    match matches.subcommand() {
        Some((name, inner)) => asked_of(name, inner),
        None => Asked::Gate(GateWords {
            report: "",
            accepted: None,
            today: None,
        }),
    }
}

/// What the words ask for, or what `clap` tells of them: help, the version, or what is wrong with them.
pub fn asked_by<'a>(alloc: Global, words: &'a [String]) -> Result<Asked<'a>, Error> {
    let command = whole(alloc)?;
    let matches = command.try_get_matches_from(words)?;
    Ok(asked_in(&matches))
}
