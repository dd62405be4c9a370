//! Scripts as lines.
use sdc_text::{
    Checks, Class, Exception, Held, Object, Script, ScriptForm, SdcFault, What, read_sdc,
};
use sdcv_base::{Edge, Kind, Name, Seq};
use std::alloc::{AllocError, Global};

fn class_text(class: Class) -> &'static str {
    match class {
        Class::Ports => "ports",
        Class::Cells => "cells",
        Class::Pins => "pins",
        Class::Nets => "nets",
        Class::Clocks => "clocks",
        Class::Any => "any",
    }
}

fn push_object(out: &mut String, object: &Object) -> Result<(), AllocError> {
    match object {
        Object::Named(query) => {
            let hier = if query.hier { "hier " } else { "" };
            let class = class_text(query.class);
            let pattern = &query.pattern;
            write!(out, " {hier}{class}:{pattern}")
        }
        Object::AllInputs => out.push_str(" AllInputs"),
        Object::AllOutputs => out.push_str(" AllOutputs"),
        Object::AllRegisters => out.push_str(" AllRegisters"),
        Object::AllClocks => out.push_str(" AllClocks"),
    }
}

fn push_objects(out: &mut String, option: &str, objects: &Seq<Object>) -> Result<(), AllocError> {
    out.push_str(option)?;
    for object in objects.as_slice() {
        push_object(out, object)?;
    }
    Ok(())
}

fn from_word(edge: Edge) -> &'static str {
    match edge {
        Edge::Any => " from",
        Edge::Rise => " rise from",
        Edge::Fall => " fall from",
    }
}

fn push_kind(out: &mut String, kind: Kind) -> Result<(), AllocError> {
    match kind {
        Kind::False => out.push_str("False"),
        Kind::Multi(k) => write!(out, "Multi {k}"),
    }
}

fn push_given(
    out: &mut String,
    option: &str,
    objects: &Option<Seq<Object>>,
) -> Result<(), AllocError> {
    match objects {
        Some(objects) => push_objects(out, option, objects),
        None => Ok(()),
    }
}

fn checks_word(checks: Checks) -> &'static str {
    match checks {
        Checks::Unsaid => "",
        Checks::Setup => " setup",
        Checks::Both => " setup hold",
    }
}

fn push_throughs(out: &mut String, throughs: &Seq<Seq<Object>>) -> Result<(), AllocError> {
    for through in throughs.as_slice() {
        push_objects(out, " through", through)?;
    }
    Ok(())
}

fn push_exception(out: &mut String, exception: &Exception) -> Result<(), AllocError> {
    push_kind(out, exception.kind)?;
    out.push_str(checks_word(exception.checks))?;
    push_given(out, from_word(exception.edge), &exception.from)?;
    push_throughs(out, &exception.through)?;
    push_given(out, " to", &exception.to)
}

fn push_held(out: &mut String, held: &Held) -> Result<(), AllocError> {
    match &held.number {
        Some(number) => write!(out, "Hold {number}")?,
        None => out.push_str("Hold")?,
    }
    push_given(out, from_word(held.edge), &held.from)?;
    push_throughs(out, &held.through)?;
    push_given(out, " to", &held.to)
}

fn push_clock(
    out: &mut String,
    name: &Option<Name>,
    source: &Seq<Object>,
) -> Result<(), AllocError> {
    match name {
        Some(name) => write!(out, "Clock {name}")?,
        None => out.push_str("Clock without a name")?,
    }
    push_objects(out, "", source)
}

fn push_what(out: &mut String, what: &What) -> Result<(), AllocError> {
    match what {
        What::Clock { name, source } => push_clock(out, name, source),
        What::Case { value, objects } => {
            push_objects(out, if *value { "Case 1" } else { "Case 0" }, objects)
        }
        What::Claiming(exception) => push_exception(out, exception),
        What::Hold(held) => push_held(out, held),
        What::Aside(name) => write!(out, "Aside {name}"),
        What::Passed => out.push_str("Passed"),
        What::Unjudged(name) => write!(out, "Unjudged {name}"),
        What::Scope(name) => write!(out, "Scope {name}"),
        What::Generated { name, objects } => {
            write!(out, "Generated {name}")?;
            push_objects(out, "", objects)
        }
        What::Delay {
            output,
            clocks,
            objects,
        } => {
            out.push_str(if *output { "Output" } else { "Input" })?;
            push_given(out, " clocks", clocks)?;
            push_objects(out, " ports", objects)
        }
    }
}

// Each command in a line: its line in the text, and what it is. Objects are a class, a colon and a pattern.
fn push_script(out: &mut String, script: &Script) -> Result<(), AllocError> {
    for command in script.commands.as_slice() {
        let line = command.line;
        write!(out, "{line} ")?;
        push_what(out, &command.what)?;
        out.push_str("\n")?;
    }
    Ok(())
}

fn push_fault(out: &mut String, fault: &SdcFault) -> Result<(), AllocError> {
    match fault {
        SdcFault::Syntax(_) => out.push_str("Syntax"),
        SdcFault::UnknownCommand(line, word) => write!(out, "UnknownCommand {line} {word}"),
        SdcFault::UnknownVariable(line, name) => write!(out, "UnknownVariable {line} {name}"),
        SdcFault::BadOption(line, word) => write!(out, "BadOption {line} {word}"),
        SdcFault::BadNumber(line, word) => write!(out, "BadNumber {line} {word}"),
        SdcFault::Memory => out.push_str("Memory"),
        SdcFault::Deep(place) => write!(out, "Deep {place}"),
    }
}

/// `script FILE`: the commands of a script, or its fault.
pub fn script_text(alloc: Global, text: &[u8]) -> Result<String, AllocError> {
    let mut out = String::new(alloc);
    match read_sdc(alloc, text, &ScriptForm::Narrow) {
        Ok(script) => push_script(&mut out, &script)?,
        Err(fault) => {
            push_fault(&mut out, &fault)?;
            out.push_str("\n")?;
        }
    }
    Ok(out)
}
