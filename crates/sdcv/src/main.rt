//! The program: it takes its words from the system, runs them on the system's files and standard output, and ends with
//! the status of the run. Why it ends with 3, 4, 6, 7 or 9 it tells on standard error, where a
//! terminal also sees how many pairs are judged.
#![tactic(auto)]

mod count_lines;
mod refusals;
mod version;

use crate::count_lines::CountLine;
use crate::refusals::told_line;
use crate::version::VERSION;
use real_host::RealHost;
use sdcv_top::{Silent, Status, run_told};
use sdcv_words::told;
use std::io::{ErrorKind, IsTerminal};
use std::process::ExitCode;
use std::{env, io};

/// The status where a word is not UTF-8. `run` never answers it.
const NOT_UTF8: u8 = 9;

fn main(rt: HostRuntime) -> ExitCode {
    let status = match words(&rt) {
        Ok(words) => ran(&rt, &words),
        Err(error) if error.kind() == ErrorKind::InvalidData => {
            let _ = eprintln!(rt; "sdcv: a word is not UTF-8");
            return ExitCode::from(NOT_UTF8);
        }
        Err(_) => Status::Memory,
    };
    if status == Status::Memory {
        let _ = eprintln!(rt; "sdcv: out of memory");
    }
    ExitCode::from(status.code())
}

// The words after the program's own name. What is no InvalidData is want of memory.
fn words(rt: &HostRuntime) -> io::Result<Vec<String>> {
    let mut args = env::args(rt)?;
    let _program = args.next();
    Ok(args.collect::<Vec<String>>(rt.alloc())?)
}

// The status of a run over the words. Where they name no command, what is wrong with them is told; and where a text is refused
// or a certificate rejected, where that is, why, and what to do.
fn ran(rt: &HostRuntime, words: &[String]) -> Status {
    let mut host = RealHost::new(rt.alloc(), "sdcv", rt, rt.stdout(), rt.stderr());
    let ran = if rt.stderr().is_terminal() {
        let mut line = CountLine::new(rt.stderr());
        let ran = run_told(rt.alloc(), words, &mut host, &mut line);
        line.clear();
        ran
    } else {
        run_told(rt.alloc(), words, &mut host, &mut Silent)
    };
    if ran.status == Status::Words {
        tell(rt, words);
    }
    if ran.status == Status::Refused || ran.status == Status::Rejected {
        if let Some(line) = &ran.refused {
            tell_refusal(rt, words, line.as_bytes());
        }
    }
    ran.status
}

// A text that can't be made or written is dropped: the status stands.
fn tell(rt: &HostRuntime, words: &[String]) {
    if let Ok(text) = told(rt.alloc(), VERSION, words) {
        let _ = eprint!(rt; "{text}");
    }
}

// The same of the lines that tell a refusal.
fn tell_refusal(rt: &HostRuntime, words: &[String], line: &[u8]) {
    if let Ok(Some(text)) = told_line(rt, words, line) {
        let _ = eprint!(rt; "{text}");
    }
}
