//! Calls of the program, and what is told of each: what it prints, how it ends, whether it gives verdicts or multicycle pairs,
//! what it saves, and where it asked for no file.
use crate::sessions::Session;
use crate::steps::Part;
use sdcv_base::MemHost;
use sdcv_top::{Status, run};
use std::alloc::{AllocError, Global};

/// How a call ended, and whether it gave verdicts or multicycle pairs.
#[derive(Clone, Copy)]
struct Given {
    status: Status,
    verdicts: bool,
    pairs: bool,
}

/// Runs the words over the files, and tells of it.
pub fn call(
    session: &mut Session,
    words: &str,
    part: Part<'_>,
    out: &mut String,
) -> Result<(), AllocError> {
    let mut host = session.host()?;
    let given = called(session.alloc(), words, &mut host)?;
    tell_part(session.alloc(), host.printed(), part, out)?;
    tell_end(given, &host, out)?;
    session.keep(&host)
}

fn called(alloc: Global, line: &str, host: &mut MemHost) -> Result<Given, AllocError> {
    let words = words_of(alloc, line)?;
    let ran = run(alloc, &words, host);
    Ok(Given {
        status: ran.status,
        verdicts: ran.judged.is_some(),
        pairs: ran.detected.is_some(),
    })
}

// The words of a line, which blanks part.
fn words_of(alloc: Global, line: &str) -> Result<Vec<String>, AllocError> {
    let mut words = Vec::new(alloc);
    for word in line.split(' ') {
        words.push(String::from_str(alloc, word)?)?;
    }
    Ok(words)
}

/// That part of a text.
pub fn tell_part(
    alloc: Global,
    bytes: &[u8],
    part: Part<'_>,
    out: &mut String,
) -> Result<(), AllocError> {
    let text = String::from_utf8_lossy(alloc, bytes)?;
    match part {
        Part::Whole => tell_whole(text.as_str(), out),
        Part::Head(count) => tell_lines(text.as_str(), 0, count, out),
        Part::Tail(count) => {
            let all = text.as_str().lines().count();
            tell_lines(text.as_str(), all.saturating_sub(count), count, out)
        }
        Part::UpTo(end) => tell_front(text.as_str(), end, out),
    }
}

// The text; where no newline ends it, that is told.
fn tell_whole(text: &str, out: &mut String) -> Result<(), AllocError> {
    out.push_str(text)?;
    if !text.is_empty() && !text.ends_with('\n') {
        out.push_str("\n(no newline)\n")?;
    }
    Ok(())
}

// So many lines after the first of them.
fn tell_lines(text: &str, first: usize, count: usize, out: &mut String) -> Result<(), AllocError> {
    for line in text.lines().skip(first).take(count) {
        out.push_str(line)?;
        out.push_str("\n")?;
    }
    Ok(())
}

// The text up to the end of that.
fn tell_front(text: &str, end: &str, out: &mut String) -> Result<(), AllocError> {
    if let Some((front, _)) = text.split_once(end) {
        out.push_str(front)?;
        out.push_str(end)?;
        out.push_str("\n")?;
    }
    Ok(())
}

// The line that ends what is told of a call.
fn tell_end(given: Given, host: &MemHost, out: &mut String) -> Result<(), AllocError> {
    let (number, status) = (given.status.code(), given.status);
    write!(out, "status {number} {status:?}")?;
    if given.verdicts {
        out.push_str(" verdicts")?;
    }
    if given.pairs {
        out.push_str(" pairs")?;
    }
    if host.asked().is_empty() {
        out.push_str(" asked nothing")?;
    }
    tell_saved(host, out)
}

fn tell_saved(host: &MemHost, out: &mut String) -> Result<(), AllocError> {
    for file in host.saved() {
        let name = &file.name;
        write!(out, " saved {name}")?;
    }
    out.push_str("\n")
}
