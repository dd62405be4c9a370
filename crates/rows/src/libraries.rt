//! Cells as lines.
use cell_lib::{
    Cell, CellKind, CombOut, Flop, FlopOut, GateCell, Keeps, Library, OtherCell, read_lib,
};
use net_model::{Func, Node};
use sdcv_base::Name;
use std::alloc::{AllocError, Global};

// A function with its places as numbers.
fn show_func(out: &mut String, func: &Func) -> Result<(), AllocError> {
    let (f, sign, g) = match &func.node {
        Node::Zero => return out.push_str("zero"),
        Node::One => return out.push_str("one"),
        Node::Pin(place) => return write!(out, "{place}"),
        Node::Not(f) => {
            out.push_str("!")?;
            return show_func(out, f);
        }
        Node::And(f, g) => (f, "*", g),
        Node::Or(f, g) => (f, "+", g),
        Node::Xor(f, g) => (f, "^", g),
    };
    out.push_str("(")?;
    show_func(out, f)?;
    out.push_str(sign)?;
    show_func(out, g)?;
    out.push_str(")")
}

fn show_given(out: &mut String, name: &str, func: &Option<Func>) -> Result<(), AllocError> {
    match func {
        Some(func) => {
            write!(out, " {name} ")?;
            show_func(out, func)
        }
        None => Ok(()),
    }
}

fn show_state(out: &mut String, pin: &FlopOut) -> Result<(), AllocError> {
    let name = &pin.name;
    let sign = if pin.inverted { "!" } else { "" };
    write!(out, " {name}={sign}state")
}

fn show_flop(out: &mut String, flop: &Flop) -> Result<(), AllocError> {
    let clock = &flop.clock;
    write!(out, " clock {clock} next ")?;
    show_func(out, &flop.next)?;
    show_given(out, "clear", &flop.clear)?;
    show_given(out, "preset", &flop.preset)?;
    out.push_str(if flop.both { " both" } else { "" })?;
    for pin in flop.outs.as_slice() {
        show_state(out, pin)?;
    }
    Ok(())
}

fn show_clock_gate(out: &mut String, gate: &GateCell) -> Result<(), AllocError> {
    let clock = &gate.clock;
    let name = &gate.out;
    write!(out, " clock {clock} to {name} where")?;
    show_names(out, gate.enables.as_slice())
}

fn show_comb(out: &mut String, pin: &CombOut) -> Result<(), AllocError> {
    let name = &pin.name;
    write!(out, " {name}=")?;
    show_func(out, &pin.func)
}

fn show_combs(out: &mut String, outs: &[CombOut]) -> Result<(), AllocError> {
    out.push_str(" gate")?;
    for pin in outs {
        show_comb(out, pin)?;
    }
    Ok(())
}

fn show_names(out: &mut String, names: &[Name]) -> Result<(), AllocError> {
    for name in names {
        write!(out, " {name}")?;
    }
    Ok(())
}

fn show_other(out: &mut String, other: &OtherCell) -> Result<(), AllocError> {
    out.push_str(" other")?;
    show_names(out, other.outs.as_slice())?;
    out.push_str(match other.keeps {
        Keeps::Nothing => "",
        Keeps::Bits => " keeps bits",
        Keeps::Memory => " keeps memory",
    })
}

fn show_kind(out: &mut String, kind: &CellKind) -> Result<(), AllocError> {
    match kind {
        CellKind::Comb(outs) => show_combs(out, outs.as_slice()),
        CellKind::Flop(flop) => show_flop(out, flop),
        CellKind::Gate(gate) => show_clock_gate(out, gate),
        CellKind::Other(other) => show_other(out, other),
    }
}

fn show_cell(out: &mut String, cell: &Cell) -> Result<(), AllocError> {
    let name = &cell.name;
    write!(out, "{name}")?;
    show_names(out, cell.inputs.as_slice())?;
    out.push_str(";")?;
    show_names(out, cell.power.as_slice())?;
    show_kind(out, &cell.kind)?;
    out.push_str("\n")
}

// A line for each cell: its name, its inputs, its power pins, and what it is.
fn show_library(out: &mut String, library: &Library) -> Result<(), AllocError> {
    for cell in library.cells.as_slice() {
        show_cell(out, cell)?;
    }
    Ok(())
}

/// `cells FILE`: the cells of a library, or how its fault is told.
pub fn cells_text(alloc: Global, text: &[u8]) -> Result<String, AllocError> {
    let mut out = String::new(alloc);
    match read_lib(alloc, text) {
        Ok(library) => show_library(&mut out, &library)?,
        Err(fault) => writeln!(out, "{fault}")?,
    }
    Ok(out)
}
