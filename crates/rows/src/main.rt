//! Sessions that are worked out by hand: files and calls in on standard input, what each call owes out on standard output.
//!
//! `stdin` reads as a session at a terminal, and `stdout` as what is answered: a further row is its line in one and its lines in
//! the other. The lines of a session are those of `Step` in steps.rt, its words those of `answer` in words.rt; all others are
//! calls of `sdcv_top::run` on a host in memory.
#![tactic(auto)]

mod calls;
mod designs;
mod graphs;
mod libraries;
mod linking;
mod netlists;
mod scripts;
mod selecting;
mod selections;
mod sessions;
mod steps;
mod watched;
mod words;

use crate::sessions::Session;
use crate::words::take_line;
use std::alloc::{AllocError, Global};
use std::io;

fn main(rt: HostRuntime) -> io::Result<()> {
    let text = io::read_to_string(rt.alloc(), rt.reader())?;
    let told = told(rt.alloc(), text.as_str())?;
    rt.print(told)
}

// What is answered to the lines of a session.
fn told(alloc: Global, text: &str) -> Result<String, AllocError> {
    let mut session = Session::new(alloc);
    let mut out = String::new(alloc);
    for line in text.split_terminator('\n') {
        take_line(&mut session, line, &mut out)?;
    }
    Ok(out)
}
