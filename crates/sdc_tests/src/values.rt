use crate::expects::same;
use sdc_values::{
    Class, Loan, Nesting, Object, Said, SdcFault, Value, Variables, objects_of, said_words,
};
use sdc_words::{Commands, RawCommand};
use sdcv_base::{Name, Seq};
use std::alloc::{AllocError, Global};

fn class_name(class: Class) -> &'static str {
    match class {
        Class::Ports => "ports",
        Class::Cells => "cells",
        Class::Pins => "pins",
        Class::Nets => "nets",
        Class::Clocks => "clocks",
        Class::Any => "any",
    }
}

fn show_object(out: &mut String, object: &Object) -> Result<(), AllocError> {
    match object {
        Object::Named(query) => {
            let class = class_name(query.class);
            let hier = if query.hier { "+" } else { ":" };
            let pattern = &query.pattern;
            write!(out, "|{class}{hier}{pattern}")
        }
        Object::AllInputs => out.push_str("|inputs"),
        Object::AllOutputs => out.push_str("|outputs"),
        Object::AllRegisters => out.push_str("|registers"),
        Object::AllClocks => out.push_str("|clocks"),
    }
}

fn text_value(alloc: Global, text: &str) -> Result<Value, AllocError> {
    Ok(Value::Text(Name::new(alloc, text.as_bytes())?))
}

fn objects_value(alloc: Global, text: &str) -> Result<Value, SdcFault> {
    let said = Said {
        offset: 0,
        value: Loan::own(text_value(alloc, text)?),
    };
    Ok(Value::Objects(objects_of(alloc, &said)?))
}

fn set(alloc: Global, vars: &mut Variables, name: &str, value: Value) -> Result<(), AllocError> {
    vars.set(Name::new(alloc, name.as_bytes())?, value)
}

// Where `c` is these objects, and `t` the text `x y`.
fn variables(alloc: Global, objects: Value) -> Result<Variables, AllocError> {
    let mut vars = Variables::new(alloc);
    set(alloc, &mut vars, "c", objects)?;
    set(alloc, &mut vars, "t", text_value(alloc, "x y")?)?;
    Ok(vars)
}

fn push_objects(alloc: Global, found: &mut Seq<Object>, word: &Said<'_>) -> Result<(), SdcFault> {
    for object in objects_of(alloc, word)?.as_slice() {
        found.push(object.copy(alloc)?)?;
    }
    Ok(())
}

fn command_objects(
    alloc: Global,
    vars: &Variables,
    command: &RawCommand,
) -> Result<Seq<Object>, SdcFault> {
    let said = said_words(
        alloc,
        Nesting::Narrow,
        vars,
        command.line,
        command.words.as_slice(),
    )?;
    let mut found = Seq::new(alloc);
    for word in said.as_slice() {
        push_objects(alloc, &mut found, word)?;
    }
    Ok(found)
}

fn said_objects(alloc: Global, vars: &Variables, text: &[u8]) -> Result<Seq<Object>, SdcFault> {
    match Commands::new(text).next_command(alloc)? {
        Some(command) => command_objects(alloc, vars, &command),
        None => Ok(Seq::new(alloc)),
    }
}

fn show_objects(out: &mut String, objects: &Seq<Object>) -> Result<(), AllocError> {
    for object in objects.as_slice() {
        show_object(out, object)?;
    }
    Ok(())
}

// The objects of all words of a text: a class, a colon, or a plus where it matches below, and a pattern. Else the fault.
fn listing(alloc: Global, vars: &Variables, text: &str) -> Result<String, AllocError> {
    let mut out = String::new(alloc);
    match said_objects(alloc, vars, text.as_bytes()) {
        Ok(objects) => show_objects(&mut out, &objects)?,
        Err(fault) => write!(out, "{fault}")?,
    }
    Ok(out)
}

// What words say where objects are wanted, by the rules of lists and of nested commands, by hand.
const SAID: &[(&str, &str)] = &[
    ("{} \"\" {{}} {{ } {}}", ""),
    ("{a{b}c {d{e f}g} h}", "|any:a{b}c|any:d{e|any:f}g|any:h"),
    ("{a {b {c d}} e}", "|any:a|any:b|any:c|any:d|any:e"),
    ("{{a{b {c} d}e}}", "|any:a{b|any:c|any:d}e"),
    (
        "a\\\\\\ b \"a\\\\\\\\ }\" \\}",
        "|any:a b|any:a\\|any:}|any:}",
    ),
    ("{{a}b}", "byte 0: no SDC command goes on like this"),
    (" {{a{b {c}}d}}", "byte 1: no SDC command goes on like this"),
    ("x \"{a\"", "byte 2: no SDC command goes on like this"),
    ("{{a\\}}", "byte 0: no SDC command goes on like this"),
    ("$c \"$t\" ${t}z", "|any:a|any:b|any:x|any:y|any:x|any:yz"),
    ("a$c", "byte 0: no SDC command goes on like this"),
    ("\n $nope", "line 2: nope is no variable"),
    (
        "[get_pins -hier {a b}] [get_clocks $t -quiet] [get_nets -hierarchical -1]",
        "|pins+a|pins+b|clocks:x|clocks:y|nets+-1",
    ),
    (
        "[list [list] [all_inputs] $c [list d [all_clocks] [get_ports e]]] [all_outputs] [all_registers]",
        "|inputs|any:a|any:b|any:d|clocks|ports:e|outputs|registers",
    ),
    ("[list -a]", "|any:-a"),
    (
        "[get_cells]",
        "line 1: the word get_cells is not taken there",
    ),
    (
        "[get_cells $c]",
        "line 1: the word get_cells is not taken there",
    ),
    (
        "[get_cells [list a]]",
        "line 1: the word get_cells is not taken there",
    ),
    ("[get_cells a b]", "line 1: the word b is not taken there"),
    (
        "[get_cells a -of]",
        "line 1: the word -of is not taken there",
    ),
    ("[all_inputs a]", "line 1: the word a is not taken there"),
    (
        "[all_inputs $c]",
        "line 1: the word all_inputs is not taken there",
    ),
    ("[list [foo]]", "line 1: foo is no command"),
    ("x []", "byte 2: no SDC command goes on like this"),
    ("[$c]", "byte 1: no SDC command goes on like this"),
];

// The objects of `c` are a and b.
#[test]
fn words_say_objects(rt: HostRuntime) -> Result<(), SdcFault> {
    let vars = variables(rt.alloc(), objects_value(rt.alloc(), "a b")?)?;
    for (text, want) in SAID {
        let got = listing(rt.alloc(), &vars, text)?;
        same(&rt, text, got.as_str(), want);
    }
    Ok(())
}
