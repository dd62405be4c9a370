use crate::expects::same;
use linked_types::PortName;
use sdc_settings::{Settings, settings};
use sdc_text::{Class, Command, Object, Query, Script, What};
use sdcv_base::{Name, Seq, Setting};
use std::alloc::{AllocError, Global};

// A command of a script, by the patterns of its objects. `Named` is a clock with a name, `CellCase` has a pattern of cells,
// `AllCase` has `all_inputs`.
#[derive(Clone, Copy)]
enum Line {
    Clock(&'static [&'static str]),
    Named(&'static str, &'static [&'static str]),
    Case(bool, &'static [&'static str]),
    CellCase(&'static str),
    AllCase(bool),
}

// Inputs `clk`, the bits of a bus `d`, and the reset `rst`.
const INPUTS: &[(&str, &str)] = &[("clk", ""), ("d[1]", "d"), ("d[0]", "d"), ("rst", "")];

// SDC 2.1, create_clock and set_case_analysis, worked by hand: the clock, and the fixed inputs with their values, or the
// fault. Lines count from 1.
const CASES: &[(&[Line], &str)] = &[
    (&[], "none"),
    (&[Line::Clock(&["clk"])], "clk"),
    (&[Line::Clock(&[]), Line::Clock(&["c*"])], "clk"),
    (
        &[Line::Clock(&["clk"]), Line::Clock(&["d[0]"])],
        "lines 1 and 2: two clocks with a source",
    ),
    (
        &[Line::Clock(&["d"])],
        "line 1: the source of a clock is not exactly one input port bit",
    ),
    (
        &[Line::Clock(&["nope"])],
        "line 1: the source of a clock is not exactly one input port bit",
    ),
    (&[Line::Case(true, &["d"])], "none d[1]=true d[0]=true"),
    (
        &[Line::Case(false, &["d[0]"]), Line::Case(false, &["d[?]"])],
        "none d[0]=false d[1]=false",
    ),
    (
        &[
            Line::Case(false, &["d[0]"]),
            Line::Case(true, &["d[1]"]),
            Line::Case(true, &["d"]),
        ],
        "lines 1 and 3: two case analyses give one port different values",
    ),
    (&[Line::Case(false, &["rst"])], "line 1: rst is a reset"),
    (
        &[Line::Case(false, &["d", "q"])],
        "line 1: q is no data input port",
    ),
    (
        &[Line::Clock(&["clk"]), Line::Case(true, &["clk"])],
        "line 2: clk is no data input port",
    ),
    (&[Line::CellCase("d")], "line 1: d is no data input port"),
    (
        &[Line::Clock(&["clk"]), Line::AllCase(true)],
        "line 2: rst is a reset",
    ),
];

// Three clocks, one without a name, of which one is asked for by its name.
const CLOCKS: &[Line] = &[
    Line::Named("ck", &["clk"]),
    Line::Named("wide", &["d"]),
    Line::Clock(&["d[0]"]),
    Line::Named("ck2", &["d[1]"]),
    Line::Named("ck2", &["d[0]"]),
    Line::Named("vio", &[]),
];

// The clock that is asked for, and its port or the fault.
const ASKED: &[(&str, &str)] = &[
    ("ck", "clk"),
    ("d[0]", "d[0]"),
    ("ck2", "lines 4 and 5: two clocks with a source"),
    (
        "wide",
        "line 2: the source of a clock is not exactly one input port bit",
    ),
    ("vio", "no clock vio has a source"),
    ("clk", "no clock clk has a source"),
];

fn object(alloc: Global, class: Class, pattern: &str) -> Result<Object, AllocError> {
    let pattern = Name::new(alloc, pattern.as_bytes())?;
    Ok(Object::Named(Query {
        class,
        hier: false,
        pattern,
    }))
}

fn objects(alloc: Global, class: Class, patterns: &[&str]) -> Result<Seq<Object>, AllocError> {
    let mut objects = Seq::new(alloc);
    for pattern in patterns {
        objects.push(object(alloc, class, pattern)?)?;
    }
    Ok(objects)
}

fn what(alloc: Global, line: Line) -> Result<What, AllocError> {
    Ok(match line {
        Line::Clock(patterns) => What::Clock {
            name: None,
            source: objects(alloc, Class::Ports, patterns)?,
        },
        Line::Named(name, patterns) => What::Clock {
            name: Some(Name::new(alloc, name.as_bytes())?),
            source: objects(alloc, Class::Ports, patterns)?,
        },
        Line::Case(value, patterns) => What::Case {
            value,
            objects: objects(alloc, Class::Any, patterns)?,
        },
        Line::CellCase(pattern) => What::Case {
            value: true,
            objects: objects(alloc, Class::Cells, &[pattern])?,
        },
        Line::AllCase(value) => What::Case {
            value,
            objects: Seq::one(alloc, Object::AllInputs)?,
        },
    })
}

fn script(alloc: Global, lines: &[Line]) -> Result<Script, AllocError> {
    let mut commands = Seq::new(alloc);
    for (k, line) in lines.iter().enumerate() {
        commands.push(Command {
            line: k as u64 + 1,
            what: what(alloc, *line)?,
        })?;
    }
    Ok(Script { commands })
}

fn bus_name(alloc: Global, bus: &str) -> Result<Option<Name>, AllocError> {
    Ok(match bus {
        "" => None,
        _ => Some(Name::new(alloc, bus.as_bytes())?),
    })
}

fn input(alloc: Global, name: &str, bus: &str) -> Result<PortName, AllocError> {
    let name = Name::new(alloc, name.as_bytes())?;
    let bus = bus_name(alloc, bus)?;
    Ok(PortName { name, bus })
}

fn inputs(alloc: Global) -> Result<Seq<PortName>, AllocError> {
    let mut inputs = Seq::new(alloc);
    for (name, bus) in INPUTS {
        inputs.push(input(alloc, name, bus)?)?;
    }
    Ok(inputs)
}

fn shown(alloc: Global, settings: &Settings) -> Result<String, AllocError> {
    let mut text = String::new(alloc);
    match &settings.clock {
        Some(name) => write!(text, "{name}")?,
        None => text.push_str("none")?,
    }
    for setting in settings.fixed.as_slice() {
        let name = &setting.name;
        let value = setting.value;
        write!(text, " {name}={value}")?;
    }
    Ok(text)
}

fn resets(alloc: Global) -> Result<Seq<Setting>, AllocError> {
    let name = Name::new(alloc, b"rst")?;
    Seq::one(alloc, Setting { name, value: true })
}

fn told(
    alloc: Global,
    lines: &[Line],
    inputs: &Seq<PortName>,
    resets: &Seq<Setting>,
    asked: &Option<Name>,
) -> Result<String, AllocError> {
    let script = script(alloc, lines)?;
    match settings(alloc, &script, inputs, resets, asked) {
        Ok(settings) => shown(alloc, &settings),
        Err(fault) => format!(in alloc; "{fault}"),
    }
}

#[test]
fn a_script_sets_what_it_says(rt: HostRuntime) -> Result<(), AllocError> {
    let inputs = inputs(rt.alloc())?;
    let resets = resets(rt.alloc())?;
    for (lines, want) in CASES {
        let text = told(rt.alloc(), lines, &inputs, &resets, &None)?;
        same(&rt, want, text.as_str(), want);
    }
    Ok(())
}

#[test]
fn a_clock_is_asked_for(rt: HostRuntime) -> Result<(), AllocError> {
    let inputs = inputs(rt.alloc())?;
    let resets = resets(rt.alloc())?;
    for (name, want) in ASKED {
        let asked = Some(Name::new(rt.alloc(), name.as_bytes())?);
        let text = told(rt.alloc(), CLOCKS, &inputs, &resets, &asked)?;
        same(&rt, name, text.as_str(), want);
    }
    Ok(())
}
