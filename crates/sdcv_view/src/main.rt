//! The program that shows a report of `sdcv` from other sides. It proves and refutes nothing.
//!
//! `groups` tells the pairs of a report by groups, `gate` what of it stops a build, `diff` how it differs from an older one, `bits`
//! which bit of a stimulus is which register or input; `show` tells the run that violates a pair by cycles, and `wave` saves it as a
//! waveform. Texts are read from the files of the system, and an answer goes to standard output or to the file that is named;
//! everything else is told on standard error. The status is 0, 1 where something stops the build or differs, 2 where the words are no
//! command, 3 where a text is refused, 5 where the host fails, 6 where memory is wanted, and 9 where a word is not UTF-8.
#![tactic(auto)]

mod answers;
mod commands;
mod ends;
mod gates;
mod reads;
#[cfg(test)]
mod tests;
mod version;

use crate::answers::answer;
use crate::commands::asked_by;
use crate::ends::{Answer, Ended};
use real_host::RealHost;
use std::io::ErrorKind;
use std::process::ExitCode;
use std::{env, io};
use view_commands::Stop;

fn main(rt: HostRuntime) -> ExitCode {
    match words(&rt) {
        Ok(words) => ran(&rt, &words),
        Err(error) if error.kind() == ErrorKind::InvalidData => {
            let _ = eprintln!(rt; "sdcv_view: a word is not UTF-8");
            ExitCode::from(9)
        }
        Err(_) => ended(&rt, Ended::Stopped(Stop::Memory)),
    }
}

// The words after the program's own name. What is no InvalidData is want of memory.
fn words(rt: &HostRuntime) -> io::Result<Vec<String>> {
    let mut args = env::args(rt)?;
    let _program = args.next();
    Ok(args.collect::<Vec<String>>(rt.alloc())?)
}

// The end of a run that has no answer. Failures of the host were told where they came.
fn ended(rt: &HostRuntime, why: Ended) -> ExitCode {
    match why {
        Ended::Stopped(stop) => {
            let _ = eprintln!(rt; "sdcv_view: {stop}");
            ExitCode::from(stop.status())
        }
        Ended::Host => ExitCode::from(5),
    }
}

// The end of a run that has an answer.
fn answered(rt: &HostRuntime, answer: &Answer) -> ExitCode {
    for remark in answer.remarks.as_slice() {
        let _ = eprintln!(rt; "sdcv_view: {remark}");
    }
    ExitCode::from(answer.status)
}

// What the words ask for, done; or what clap tells of them.
fn ran(rt: &HostRuntime, words: &[String]) -> ExitCode {
    let mut host = RealHost::new(rt.alloc(), "sdcv_view", rt, rt.stdout(), rt.stderr());
    match asked_by(rt.alloc(), words) {
        Ok(asked) => match answer(rt.alloc(), &mut host, &asked) {
            Ok(answer) => answered(rt, &answer),
            Err(why) => ended(rt, why),
        },
        Err(error) => {
            let _ = error.print(rt);
            ExitCode::from(error.exit_code() as u8)
        }
    }
}
