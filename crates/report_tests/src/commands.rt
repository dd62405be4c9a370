use run_options::{Cutting, NetlistForm, ScriptForm};
use sdcv_base::{Name, Seq, Setting};
use sdcv_words::{Command, Finding, Job, Mending, Options, Texts, command_of};
use std::alloc::{AllocError, Global};

/// The words between the bars.
pub fn words_in(alloc: Global, text: &str) -> Result<Vec<String>, AllocError> {
    let mut words = Vec::new(alloc);
    for word in text.split('|') {
        words.push(word.to_string(alloc)?)?;
    }
    Ok(words)
}

fn resets_text(alloc: Global, resets: &Seq<Setting>) -> Result<String, AllocError> {
    let mut text = String::new(alloc);
    for setting in resets.as_slice() {
        let name = &setting.name;
        let value = setting.value;
        let one = format!(in alloc; " {name}={value}")?;
        text.push_str(&one)?;
    }
    Ok(text)
}

// How a script is read: nothing where it is by the rules of each run, else the names that are passed over.
fn form_text(alloc: Global, form: &ScriptForm) -> Result<String, AllocError> {
    match form {
        ScriptForm::Narrow => Ok(String::new(alloc)),
        ScriptForm::Wide(names) => wide_text(alloc, names),
    }
}

fn wide_text(alloc: Global, names: &Seq<Name>) -> Result<String, AllocError> {
    let mut text = " wide".to_string(alloc)?;
    for name in names.as_slice() {
        let one = format!(in alloc; " <{name}>")?;
        text.push_str(&one)?;
    }
    Ok(text)
}

// How a netlist is read: nothing where it is by the rules of each run, else the top module, the clock and the patterns.
fn netlist_text(alloc: Global, form: &NetlistForm) -> Result<String, AllocError> {
    match form {
        NetlistForm::Narrow => Ok(String::new(alloc)),
        NetlistForm::Wide(cutting) => cutting_text(alloc, cutting),
    }
}

// A word with a name, where there is one.
fn named_text(alloc: Global, word: &str, name: &Option<Name>) -> Result<String, AllocError> {
    match name {
        Some(name) => format!(in alloc; " {word} <{name}>"),
        None => Ok(String::new(alloc)),
    }
}

fn cutting_text(alloc: Global, cutting: &Cutting) -> Result<String, AllocError> {
    let top = named_text(alloc, "top", &cutting.top)?;
    let clock = named_text(alloc, "clock", &cutting.clock)?;
    let mut text = format!(in alloc; "{top}{clock} free")?;
    for pattern in cutting.free.as_slice() {
        let one = format!(in alloc; " <{pattern}>")?;
        text.push_str(&one)?;
    }
    Ok(text)
}

fn options_text(alloc: Global, options: &Options) -> Result<String, AllocError> {
    let mode = if options.judging.hazard {
        "hazard"
    } else {
        "plain"
    };
    let resets = resets_text(alloc, &options.reset.ports)?;
    let lag = options.judging.lag;
    let hold = if options.judging.hold { " hold" } else { "" };
    let strict = if options.judging.strict {
        " strict"
    } else {
        ""
    };
    let netlist = netlist_text(alloc, &options.forms.netlist)?;
    let form = form_text(alloc, &options.forms.script)?;
    let cycles = options.reset.len;
    format!(in alloc; "{mode} lag {lag}{hold}{strict}{netlist}{form}{resets} cycles {cycles}")
}

fn job_text(alloc: Global, job: &Job<'_>) -> Result<String, AllocError> {
    match job {
        Job::Verify {
            out,
            json,
            proving,
            assist,
        } => {
            let assist = assist.unwrap_or("-");
            let depth = proving.depth;
            let budget = proving.budget;
            let inv = proving.inv_depth;
            format!(in alloc;
                "verify <{out}> json {json} depth {depth} budget {budget} inv {inv} assist <{assist}>"
            )
        }
        Job::Check { cert } => format!(in alloc; "check <{cert}>"),
        Job::Replay { report, pair } => format!(in alloc; "replay <{report}> pair {pair}"),
        Job::Aiger { out, pair, symbols } => {
            let named = if *symbols { " with symbols" } else { "" };
            format!(in alloc; "aiger <{out}> pair {pair}{named}")
        }
    }
}

fn finding_text(alloc: Global, finding: &Finding<'_>) -> Result<String, AllocError> {
    let out = finding.out;
    let depth = finding.proving.depth;
    let budget = finding.proving.budget;
    let inv = finding.proving.inv_depth;
    let bound = finding.bound;
    let hold = if finding.hold { " hold" } else { "" };
    format!(in alloc; "detect <{out}> depth {depth} budget {budget} inv {inv} bound {bound}{hold}")
}

fn mending_text(alloc: Global, mending: &Mending<'_>) -> Result<String, AllocError> {
    let out = mending.out;
    let depth = mending.proving.depth;
    let budget = mending.proving.budget;
    let inv = mending.proving.inv_depth;
    let assist = mending.assist.unwrap_or("-");
    format!(in alloc; "mend <{out}> depth {depth} budget {budget} inv {inv} assist <{assist}>")
}

fn texts_text(alloc: Global, texts: &Texts<'_>) -> Result<String, AllocError> {
    let v = texts.netlist;
    let l = texts.cells;
    let s = texts.constraints;
    format!(in alloc; "<{v}> <{l}> <{s}>")
}

// The texts, the options and what else is said, in one line.
fn line(
    alloc: Global,
    texts: &Texts<'_>,
    options: &Options,
    rest: &str,
) -> Result<String, AllocError> {
    let texts = texts_text(alloc, texts)?;
    let options = options_text(alloc, options)?;
    format!(in alloc; "{texts} {options} {rest}")
}

// A command in one line.
fn told(alloc: Global, command: &Command<'_>) -> Result<String, AllocError> {
    match command {
        Command::Over {
            texts,
            options,
            job,
        } => {
            let job = job_text(alloc, job)?;
            line(alloc, texts, options, job.as_str())
        }
        Command::Detect {
            texts,
            options,
            finding,
        } => {
            let finding = finding_text(alloc, finding)?;
            line(alloc, texts, options, finding.as_str())
        }
        Command::Mend {
            texts,
            options,
            mending,
        } => {
            let mending = mending_text(alloc, mending)?;
            line(alloc, texts, options, mending.as_str())
        }
        Command::Demo { seed, size } => format!(in alloc; "demo {seed} {size}"),
    }
}

// What the words between the bars name.
fn named(alloc: Global, text: &str) -> Result<String, AllocError> {
    let words = words_in(alloc, text)?;
    match command_of(alloc, &words)? {
        Some(command) => told(alloc, &command),
        None => "none".to_string(alloc),
    }
}

// By their places: the name, the positions, then options, each value in a word of its own.
const BY_PLACE: &[(&str, &str)] = &[
    (
        "verify|v|builtin|s|--out|c",
        "<v> <builtin> <s> plain lag 0 cycles 0 verify <c> json false depth 8 budget 20000 inv 1 assist <->",
    ),
    (
        "verify|v|builtin|s|--out|c|--assist|h",
        "<v> <builtin> <s> plain lag 0 cycles 0 verify <c> json false depth 8 budget 20000 inv 1 assist <h>",
    ),
    (
        "verify|v|l|s|--out|c|--reset|rst=1",
        "<v> <l> <s> plain lag 0 rst=true cycles 1 verify <c> json false depth 8 budget 20000 inv 1 assist <->",
    ),
    (
        "verify|v|l|s|--json|--hazard|--lag|8|--reset|a=0,b=1|--reset-cycles|64|--depth|64|--budget|10000000|--inv-depth|8|--out|c",
        "<v> <l> <s> hazard lag 8 a=false b=true cycles 64 verify <c> json true depth 64 budget 10000000 inv 8 assist <->",
    ),
    (
        "verify|v|l|s|--out|c|--reset-cycles|2|--budget|01|--depth|0|--inv-depth|0",
        "<v> <l> <s> plain lag 0 cycles 2 verify <c> json false depth 0 budget 1 inv 0 assist <->",
    ),
    (
        "verify|v|l|s|--hold|--hazard|--out|c",
        "<v> <l> <s> hazard lag 0 hold cycles 0 verify <c> json false depth 8 budget 20000 inv 1 assist <->",
    ),
    (
        "check|v|l|s|c|--hold|--lag|2",
        "<v> <l> <s> plain lag 2 hold cycles 0 check <c>",
    ),
    (
        "replay|v|l|s|r|1|--hold",
        "<v> <l> <s> plain lag 0 hold cycles 0 replay <r> pair 1",
    ),
    (
        "mend|v|l|s|--out|m|--hold",
        "<v> <l> <s> plain lag 0 hold cycles 0 mend <m> depth 8 budget 20000 inv 1 assist <->",
    ),
    (
        "aiger|v|l|s|2|--hold|--out|a",
        "<v> <l> <s> plain lag 0 hold cycles 0 aiger <a> pair 2",
    ),
    (
        "verify|v|l|s|--strict|--hold|--out|c",
        "<v> <l> <s> plain lag 0 hold strict wide cycles 0 verify <c> json false depth 8 budget 20000 inv 1 assist <->",
    ),
    (
        "verify|v|l|s|--out|c|--skip|set_sense,set dont use|--strict",
        "<v> <l> <s> plain lag 0 strict wide <set_sense> <set dont use> cycles 0 verify <c> json false depth 8 budget 20000 inv 1 assist <->",
    ),
    (
        "check|v|l|s|c|--skip|puts",
        "<v> <l> <s> plain lag 0 wide <puts> cycles 0 check <c>",
    ),
    (
        "replay|v|l|s|r|1|--strict",
        "<v> <l> <s> plain lag 0 strict wide cycles 0 replay <r> pair 1",
    ),
    (
        "detect|v|l|s|--skip|a,b,a|--out|f",
        "<v> <l> <s> plain lag 0 wide <a> <b> <a> cycles 0 detect <f> depth 8 budget 20000 inv 1 bound 4",
    ),
    (
        "mend|v|l|s|--skip|a|--out|m",
        "<v> <l> <s> plain lag 0 wide <a> cycles 0 mend <m> depth 8 budget 20000 inv 1 assist <->",
    ),
    (
        "mend|v|l|s|--out|m|--strict",
        "<v> <l> <s> plain lag 0 strict wide cycles 0 mend <m> depth 8 budget 20000 inv 1 assist <->",
    ),
    (
        "verify|v|l|s|--free|RAM,SEQ*|--out|c|--top|core",
        "<v> <l> <s> plain lag 0 top <core> free <RAM> <SEQ*> cycles 0 verify <c> json false depth 8 budget 20000 inv 1 assist <->",
    ),
    (
        "check|v|l|s|c|--top|core",
        "<v> <l> <s> plain lag 0 top <core> free cycles 0 check <c>",
    ),
    (
        "replay|v|l|s|r|1|--free|*|--strict",
        "<v> <l> <s> plain lag 0 strict free <*> wide cycles 0 replay <r> pair 1",
    ),
    (
        "detect|v|l|s|--free|R?M|--top|t|--out|f",
        "<v> <l> <s> plain lag 0 top <t> free <R?M> cycles 0 detect <f> depth 8 budget 20000 inv 1 bound 4",
    ),
    (
        "mend|v|l|s|--out|m|--free|RAM,RAM|--skip|a",
        "<v> <l> <s> plain lag 0 free <RAM> <RAM> wide <a> cycles 0 mend <m> depth 8 budget 20000 inv 1 assist <->",
    ),
    (
        "aiger|v|l|s|2|--out|a|--free|RAM|--top|core",
        "<v> <l> <s> plain lag 0 top <core> free <RAM> cycles 0 aiger <a> pair 2",
    ),
    (
        "verify|v|l|s|--clock|ck|--out|c",
        "<v> <l> <s> plain lag 0 clock <ck> free cycles 0 verify <c> json false depth 8 budget 20000 inv 1 assist <->",
    ),
    (
        "check|v|l|s|c|--top|core|--clock|ck 2|--free|RAM",
        "<v> <l> <s> plain lag 0 top <core> clock <ck 2> free <RAM> cycles 0 check <c>",
    ),
    (
        "replay|v|l|s|r|1|--clock|ck",
        "<v> <l> <s> plain lag 0 clock <ck> free cycles 0 replay <r> pair 1",
    ),
    (
        "detect|v|l|s|--clock|ck|--out|f",
        "<v> <l> <s> plain lag 0 clock <ck> free cycles 0 detect <f> depth 8 budget 20000 inv 1 bound 4",
    ),
    (
        "mend|v|l|s|--out|m|--clock|ck|--strict",
        "<v> <l> <s> plain lag 0 strict clock <ck> free wide cycles 0 mend <m> depth 8 budget 20000 inv 1 assist <->",
    ),
    (
        "aiger|v|l|s|2|--out|a|--clock|ck",
        "<v> <l> <s> plain lag 0 clock <ck> free cycles 0 aiger <a> pair 2",
    ),
    (
        "aiger|v|l|s|2|--strict|--out|a|--skip|a",
        "<v> <l> <s> plain lag 0 strict wide <a> cycles 0 aiger <a> pair 2",
    ),
    (
        "check|v|l|s|c|--reset|a=b=1|--lag|02|--hazard",
        "<v> <l> <s> hazard lag 2 a=b=true cycles 1 check <c>",
    ),
    (
        "check|v|l|s|c",
        "<v> <l> <s> plain lag 0 cycles 0 check <c>",
    ),
    (
        "replay|v|l|s|r|1|--lag|0|--reset|rst=1",
        "<v> <l> <s> plain lag 0 rst=true cycles 1 replay <r> pair 1",
    ),
    (
        "replay|v|l|s|r|18446744073709551615",
        "<v> <l> <s> plain lag 0 cycles 0 replay <r> pair 18446744073709551615",
    ),
    (
        "detect|v|builtin|s|--out|f",
        "<v> <builtin> <s> plain lag 0 cycles 0 detect <f> depth 8 budget 20000 inv 1 bound 4",
    ),
    (
        "detect|v|l|s|--bound|16|--hazard|--depth|0|--out|f|--reset|rst=1",
        "<v> <l> <s> hazard lag 0 rst=true cycles 1 detect <f> depth 0 budget 20000 inv 1 bound 16",
    ),
    (
        "detect|v|builtin|s|--hold|--out|f",
        "<v> <builtin> <s> plain lag 0 cycles 0 detect <f> depth 8 budget 20000 inv 1 bound 4 hold",
    ),
    (
        "mend|v|builtin|s|--out|m",
        "<v> <builtin> <s> plain lag 0 cycles 0 mend <m> depth 8 budget 20000 inv 1 assist <->",
    ),
    (
        "mend|v|l|s|--assist|h|--hazard|--lag|8|--reset|a=0,b=1|--reset-cycles|64|--depth|64|--budget|10000000|--inv-depth|8|--out|m",
        "<v> <l> <s> hazard lag 8 a=false b=true cycles 64 mend <m> depth 64 budget 10000000 inv 8 assist <h>",
    ),
    (
        "aiger|v|builtin|s|1|--out|a",
        "<v> <builtin> <s> plain lag 0 cycles 0 aiger <a> pair 1",
    ),
    (
        "aiger|v|l|s|18446744073709551615|--reset-cycles|3|--lag|8|--out|a|--reset|rst=1",
        "<v> <l> <s> plain lag 8 rst=true cycles 3 aiger <a> pair 18446744073709551615",
    ),
    (
        "aiger|v|builtin|s|2|--symbols|--out|a",
        "<v> <builtin> <s> plain lag 0 cycles 0 aiger <a> pair 2 with symbols",
    ),
    ("demo|007|160", "demo 7 160"),
];

// Not by their places: `clap` takes these.
const BY_CLAP: &[(&str, &str)] = &[
    (
        "verify|v|l|s|--out=c",
        "<v> <l> <s> plain lag 0 cycles 0 verify <c> json false depth 8 budget 20000 inv 1 assist <->",
    ),
    (
        "verify|--out|c|v|--json|l|s",
        "<v> <l> <s> plain lag 0 cycles 0 verify <c> json true depth 8 budget 20000 inv 1 assist <->",
    ),
    (
        "verify|--out|c|--|-v|l|s",
        "<-v> <l> <s> plain lag 0 cycles 0 verify <c> json false depth 8 budget 20000 inv 1 assist <->",
    ),
    (
        "verify|v|l|s|--out=-c",
        "<v> <l> <s> plain lag 0 cycles 0 verify <-c> json false depth 8 budget 20000 inv 1 assist <->",
    ),
    (
        "verify|v||s|--out=",
        "<v> <> <s> plain lag 0 cycles 0 verify <> json false depth 8 budget 20000 inv 1 assist <->",
    ),
    (
        "check|--hazard|v|-|s|c",
        "<v> <-> <s> hazard lag 0 cycles 0 check <c>",
    ),
    (
        "replay|--reset=a=0|v|l|s|r|2|--lag=1",
        "<v> <l> <s> plain lag 1 a=false cycles 1 replay <r> pair 2",
    ),
    (
        "verify|--assist=h|v|l|s|--out=c",
        "<v> <l> <s> plain lag 0 cycles 0 verify <c> json false depth 8 budget 20000 inv 1 assist <h>",
    ),
    (
        "detect|--hold|v|l|s|--out=f",
        "<v> <l> <s> plain lag 0 cycles 0 detect <f> depth 8 budget 20000 inv 1 bound 4 hold",
    ),
    (
        "mend|--assist=h|v|l|s|--out=m",
        "<v> <l> <s> plain lag 0 cycles 0 mend <m> depth 8 budget 20000 inv 1 assist <h>",
    ),
    (
        "replay|--hold|v|l|s|r|2",
        "<v> <l> <s> plain lag 0 hold cycles 0 replay <r> pair 2",
    ),
    (
        "check|--strict|--skip=a,b|v|l|s|c",
        "<v> <l> <s> plain lag 0 strict wide <a> <b> cycles 0 check <c>",
    ),
    (
        "check|--free=RAM,SEQ|v|l|s|c|--top=core",
        "<v> <l> <s> plain lag 0 top <core> free <RAM> <SEQ> cycles 0 check <c>",
    ),
    (
        "check|--clock=ck|v|l|s|c",
        "<v> <l> <s> plain lag 0 clock <ck> free cycles 0 check <c>",
    ),
    (
        "detect|--top=core|v|l|s|--out=f",
        "<v> <l> <s> plain lag 0 top <core> free cycles 0 detect <f> depth 8 budget 20000 inv 1 bound 4",
    ),
    (
        "aiger|--out=a|v|l|s|2|--lag=1",
        "<v> <l> <s> plain lag 1 cycles 0 aiger <a> pair 2",
    ),
    (
        "aiger|--symbols|--out=a|v|l|s|2",
        "<v> <l> <s> plain lag 0 cycles 0 aiger <a> pair 2 with symbols",
    ),
    ("demo|--|7|20", "demo 7 20"),
];

// Words that name no command, each with what is wrong with it.
const NONE: &[(&str, &str)] = &[
    ("", "an empty word"),
    ("verify|v|l", "too few positions"),
    ("verify|v|l|s", "no certificate is named"),
    ("verify|v|l|s|--out", "no value for an option"),
    ("verify|v|l|s|--out|c|--depth|65", "a depth past its range"),
    ("verify|v|l|s|--out|c|--budget|0", "a budget of nothing"),
    (
        "verify|v|l|s|--out|c|--budget|10000001",
        "a budget past its range",
    ),
    (
        "verify|v|l|s|--out|c|--inv-depth|9",
        "an invariant depth past its range",
    ),
    (
        "verify|v|l|s|--out|c|--reset-cycles|65",
        "more cycles than reset is held",
    ),
    ("verify|v|l|s|--out|c|--lag|9", "a lag past its range"),
    ("replay|v|l|s|r|1|--lag", "no value for a lag"),
    ("check|v|l|s|c|--lag|1|--lag|1", "a lag twice"),
    ("demo|7|20|--lag|1", "a lag of a generated design"),
    ("demo|7|20|--hold", "the hold side of a generated design"),
    ("check|v|l|s|c|--hold|--hold", "the hold side twice"),
    ("check|v|l|s|c|--hold=true", "the hold side with a value"),
    ("check|v|l|s|c|--strict|--strict", "a sign-off twice"),
    ("check|v|l|s|c|--strict=true", "a sign-off with a value"),
    ("detect|v|l|s|--out|f|--strict", "a sign-off of found pairs"),
    ("demo|7|20|--strict", "a sign-off of a generated design"),
    ("check|v|l|s|c|--skip", "no list of commands to pass over"),
    (
        "check|v|l|s|c|--skip|",
        "an empty list of commands to pass over",
    ),
    (
        "check|v|l|s|c|--skip|a,",
        "an empty name of commands to pass over",
    ),
    (
        "check|v|l|s|c|--skip|a|--skip|b",
        "two lists of commands to pass over",
    ),
    (
        "check|v|l|s|c|--skip|a,set_false_path",
        "exceptions to pass over",
    ),
    (
        "check|v|l|s|c|--skip|set_clock_groups",
        "commands that are passed over by themselves",
    ),
    (
        "check|v|l|s|c|--skip|foreach",
        "commands that may hold exceptions",
    ),
    (
        "demo|7|20|--skip|a",
        "commands of a generated design to pass over",
    ),
    ("check|v|l|s|c|--free", "no list of patterns"),
    ("check|v|l|s|c|--free|", "an empty list of patterns"),
    ("check|v|l|s|c|--free|RAM,", "an empty pattern at the end"),
    ("check|v|l|s|c|--free|,RAM", "an empty pattern at the start"),
    ("check|--free=RAM,,SEQ|v|l|s|c", "an empty pattern between"),
    (
        "check|--free=-RAM|v|l|s|c",
        "a list that begins as an option",
    ),
    (
        "check|v|l|s|c|--free|RAM|--free|SEQ",
        "two lists of patterns",
    ),
    ("demo|7|20|--free|RAM", "cells of a generated design to cut"),
    ("check|v|l|s|c|--clock", "no name of a clock"),
    ("check|v|l|s|c|--clock|", "an empty name of a clock"),
    (
        "check|--clock=-ck|v|l|s|c",
        "a clock that begins as an option",
    ),
    ("check|v|l|s|c|--clock|a|--clock|b", "two clocks"),
    ("demo|7|20|--clock|clk", "the clock of a generated design"),
    ("check|v|l|s|c|--top", "no name of a top module"),
    ("check|v|l|s|c|--top|", "an empty name of a top module"),
    ("check|--top=|v|l|s|c", "an empty name, in one word"),
    ("check|--top=-t|v|l|s|c", "a name that begins as an option"),
    ("check|v|l|s|c|--top|t|--top|t", "two top modules"),
    ("demo|7|20|--top|t", "the top module of a generated design"),
    ("verify|v|l|s|--out|c|--depth|+1", "a sign"),
    ("verify|v|l|s|--out|c|--depth|", "a number without digits"),
    (
        "verify|v|l|s|--out|c|--depth|000000000000000000001",
        "twenty-one digits",
    ),
    (
        "verify|v|l|s|--out|c|--reset|rst=2",
        "a value that is no bit",
    ),
    ("verify|v|l|s|--out|c|--reset|rst", "no value for a port"),
    ("verify|v|l|s|--out|c|--reset|=1", "a port without a name"),
    (
        "verify|v|l|s|--out|c|--reset|a=1,",
        "an empty part of a list",
    ),
    ("verify|v|l|s|--out|c|--reset|a=1,a=0", "a port twice"),
    ("verify|v|l|s|--out|c|--reset|a=01", "a value of two digits"),
    ("verify|v|l|s|--out|c|--out|d", "an option twice"),
    ("verify|v|l|s|--out|c|--json|--json", "a flag twice"),
    ("verify|v|l|s|--out|c|--json=true", "a flag with a value"),
    ("verify|v|l|s|--out|-c", "a value that begins with a dash"),
    ("verify|v|l|s|--ou|c", "a part of an option's word"),
    ("verify|v|l|s|x|--out|c", "one position more"),
    ("verify|--help", "a request for help"),
    ("--help", "the same before a command"),
    ("help", "a word for help"),
    (
        "--json|verify|v|l|s|--out|c",
        "an option before the command",
    ),
    ("check|v|l|s|c|--out|d", "an option of another command"),
    ("check|v|l|s|c|--json", "a flag of another command"),
    ("replay|v|l|s|r|0", "a pair before the first"),
    (
        "replay|v|l|s|r|18446744073709551616",
        "a pair past all numbers",
    ),
    ("aiger|v|l|s|0|--out|a", "a watched pair before the first"),
    ("aiger|v|l|s|1", "no file is named for a graph"),
    ("aiger|v|l|s|--out|a", "no watched pair"),
    (
        "aiger|v|l|s|1|--out|a|--hazard",
        "hazards of a watched pair",
    ),
    ("aiger|v|l|s|1|--out|a|--symbols|--symbols", "symbols twice"),
    (
        "aiger|v|l|s|1|--out|a|--symbols=true",
        "symbols with a value",
    ),
    ("verify|v|l|s|--out|c|--symbols", "symbols of no graph"),
    ("mend|v|l|s", "no file is named for a mended script"),
    ("mend|v|l|s|--out|m|--json", "a mended script as JSON"),
    (
        "mend|v|l|s|--out|m|--lag|9",
        "a lag of a mended script past its range",
    ),
    ("detect|v|l|s|--out|f|--hold|--hold", "hold lines twice"),
    ("demo|7|20|--hold", "hold lines of a generated design"),
    ("demo|7|0", "a design of no blocks"),
    ("demo|7|161", "a design past its size"),
    ("demo|-7|20", "a negative number"),
    ("detects|v|l|s|--out|c", "a command of another name"),
];

// The first of the words that name another command, with that one.
fn first_other(alloc: Global, rows: &[(&str, &str)]) -> Result<Option<String>, AllocError> {
    for (words, want) in rows {
        let found = named(alloc, words)?;
        if found.as_str() != *want {
            return Ok(Some(format!(in alloc; "{words}: {found}")?));
        }
    }
    Ok(None)
}

#[test]
fn words_in_their_places_name_a_command(rt: HostRuntime) -> Result<(), AllocError> {
    let other = first_other(rt.alloc(), BY_PLACE)?;
    assert_eq!(rt; other, None);
    Ok(())
}

#[test]
fn words_in_another_order_name_what_clap_takes(rt: HostRuntime) -> Result<(), AllocError> {
    let other = first_other(rt.alloc(), BY_CLAP)?;
    assert_eq!(rt; other, None);
    Ok(())
}

#[test]
fn other_words_name_no_command(rt: HostRuntime) -> Result<(), AllocError> {
    for (words, wrong) in NONE {
        let found = named(rt.alloc(), words)?;
        assert_eq!(rt; found.as_str(), "none", "{wrong}");
    }
    assert!(rt; command_of(rt.alloc(), &[])?.is_none());
    Ok(())
}
