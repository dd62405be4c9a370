//! What a line of a session does, and the words for what is no call: files are shown, counted, compared and cut, and saved
//! graphs are run.
use crate::calls::{call, tell_part};
use crate::libraries::cells_text;
use crate::linking::linked_text;
use crate::netlists::netlist_text;
use crate::scripts::script_text;
use crate::selecting::selected_text;
use crate::sessions::Session;
use crate::steps::{Part, Step, number_of, step_of};
use crate::watched::{tell_bads, tell_graph};
use std::alloc::AllocError;

/// Does what the line asks for, and tells of it.
pub fn take_line(session: &mut Session, line: &str, out: &mut String) -> Result<(), AllocError> {
    match step_of(line) {
        Step::Remark => {
            session.close();
            Ok(())
        }
        Step::File(name) => session.open(name.as_bytes(), &[]),
        Step::Times(times, piece) => add_times(session, times, piece),
        Step::Numbered(times, piece) => add_numbered(session, times, piece),
        Step::Fail(step) => {
            session.plan(step);
            tell_line(line, out)
        }
        Step::Call(part, words) => {
            session.close();
            tell_line(line, out)?;
            answer(session, words, part, out)
        }
        Step::Line => take_text(session, line, out),
    }
}

fn tell_line(line: &str, out: &mut String) -> Result<(), AllocError> {
    out.push_str(line)?;
    out.push_str("\n")
}

// A line of the file that is open; one that is of no file is told as such.
fn take_text(session: &mut Session, line: &str, out: &mut String) -> Result<(), AllocError> {
    if session.is_open() {
        session.add(line.as_bytes())?;
        return session.add(b"\n");
    }
    out.push_str("of no file: ")?;
    tell_line(line, out)
}

fn add_times(session: &mut Session, times: usize, piece: &str) -> Result<(), AllocError> {
    for _ in 0..times {
        session.add(piece.as_bytes())?;
    }
    Ok(())
}

fn add_numbered(session: &mut Session, times: usize, piece: &str) -> Result<(), AllocError> {
    for number in 0..times {
        add_piece(session, number, piece)?;
    }
    Ok(())
}

// A piece, with the number for each `#` and the next for each `@`.
fn add_piece(session: &mut Session, number: usize, piece: &str) -> Result<(), AllocError> {
    for byte in piece.as_bytes() {
        match byte {
            b'#' => add_number(session, number)?,
            b'@' => add_number(session, number.saturating_add(1))?,
            _ => session.add(&[*byte])?,
        }
    }
    Ok(())
}

fn add_number(session: &mut Session, number: usize) -> Result<(), AllocError> {
    let digits = format!(in session.alloc(); "{number}")?;
    session.add(digits.as_bytes())
}

// What the words ask for: all but these are a call.
fn answer(
    session: &mut Session,
    words: &str,
    part: Part<'_>,
    out: &mut String,
) -> Result<(), AllocError> {
    if let Some(text) = stage_text(session, words)? {
        return stage(session, text.as_str(), part, out);
    }
    match words.split_once(' ') {
        Some(("show", name)) => tell_part(session.alloc(), session.bytes(name), part, out),
        Some(("count", more)) => tell_count(session, more, out),
        Some(("front", more)) => keep_front(session, more, out),
        Some(("same", more)) => tell_same(session, more, out),
        Some(("graph", name)) => tell_graph(session, name, out),
        Some(("bads", more)) => tell_bads(session, more, out),
        _ => call(session, words, part, out),
    }
}

// What the stage gives that the words name, if they name one.
fn stage_text(session: &Session, words: &str) -> Result<Option<String>, AllocError> {
    let Some((word, more)) = words.split_once(' ') else {
        return Ok(None);
    };
    let text = match word {
        "netlist" => netlist_text(session.alloc(), session.bytes(more))?,
        "cells" => cells_text(session.alloc(), session.bytes(more))?,
        "script" => script_text(session.alloc(), session.bytes(more))?,
        "select" => selected_text(session, more)?,
        "link" => linked_text(session, more)?,
        _ => return Ok(None),
    };
    Ok(Some(text))
}

// What a stage gives is told in part, and is the file `printed` from then on.
fn stage(
    session: &mut Session,
    text: &str,
    part: Part<'_>,
    out: &mut String,
) -> Result<(), AllocError> {
    tell_part(session.alloc(), text.as_bytes(), part, out)?;
    session.open(b"printed", text.as_bytes())?;
    session.close();
    Ok(())
}

// `count FILE TEXT`: in how many of its lines the text stands.
fn tell_count(session: &Session, more: &str, out: &mut String) -> Result<(), AllocError> {
    let Some((name, piece)) = more.split_once(' ') else {
        return tell_line("count FILE TEXT", out);
    };
    let text = String::from_utf8_lossy(session.alloc(), session.bytes(name))?;
    let lines = text.as_str().lines();
    let count = lines.filter(|line| line.contains(piece)).count();
    writeln!(out, "{count}")
}

// `front N OLD NEW`: the file NEW has the first N bytes of OLD, or all where there are fewer.
fn keep_front(session: &mut Session, more: &str, out: &mut String) -> Result<(), AllocError> {
    let mut words = more.split(' ');
    let (Some(count), Some(old), Some(new)) = (words.next(), words.next(), words.next()) else {
        return tell_line("front N OLD NEW", out);
    };
    let bytes = session.bytes(old);
    let count = number_of(count).unwrap_or(bytes.len()).min(bytes.len());
    let front = Vec::from_slice(session.alloc(), &bytes[..count])?;
    session.open(new.as_bytes(), &front)?;
    session.close();
    Ok(())
}

// `same ONE OTHER`: whether two files have the same bytes.
fn tell_same(session: &Session, more: &str, out: &mut String) -> Result<(), AllocError> {
    let Some((one, other)) = more.split_once(' ') else {
        return tell_line("same ONE OTHER", out);
    };
    let is_same = session.bytes(one) == session.bytes(other);
    writeln!(out, "{is_same}")
}
