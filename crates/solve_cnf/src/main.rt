//! A formula in DIMACS form from standard input is solved within a budget of learnt clauses, which
//! is the one word of the command, and the answer is printed in the form of the SAT competitions:
//! `s SATISFIABLE` with a `v` line, `s UNSATISFIABLE` or `s UNKNOWN`. A derivation is checked before
//! it is told.
//!
//! The status is 10, 20 or 0 for the three answers, and 1 where the words or the text are refused,
//! memory is wanted or the system fails.
#![tactic(auto)]

mod answers;
#[cfg(test)]
mod tests;

ghost use Rattle.std.specs.Prelude.{IfOk};
ghost use Rattle.dimacs_text.specs.Texts.{IsHeaded};

use anyhow::{Context, bail};
use dimacs_text::{Headed, read_dimacs};
use sdcv_base::read_decimal;
use std::io::{BufReader, BufWriter, Read, Write};
use std::process::ExitCode;
use std::rt::Env;
use std::{env, io};

fn main(rt: HostRuntime) -> ExitCode {
    match run(&rt) {
        Ok(code) => code,
        Err(error) => {
            let _ = eprintln!(rt; "solve_cnf: {error:#}");
            ExitCode::from(1)
        }
    }
}

fn run(rt: &HostRuntime) -> anyhow::Result<ExitCode> {
    let budget = budget(rt)?;
    let formula = formula(rt)?;
    let mut out = BufWriter::new(rt.alloc(), io::writer(rt))?;
    let status = answers::solved(rt.alloc(), &formula, budget, &mut out)?;
    out.flush()?;
    Ok(ExitCode::from(status))
}

/// The budget, from the one word of the command.
fn budget(rt: &HostRuntime) -> anyhow::Result<u64> {
    let mut words = env::args(rt)?.skip(1);
    let word = words.next().context("one word is wanted: the budget")?;
    if words.next().is_some() {
        bail!("one word is wanted: the budget");
    }
    read_decimal(word.as_bytes(), u64::MAX).context("the budget is no number")
}

/// The formula that standard input holds.
fn formula(rt: &HostRuntime) -> anyhow::Result<Headed>
    ensures { IfOk result IsHeaded }
{
    let alloc = rt.alloc();
    let mut text = Vec::new(alloc);
    BufReader::new(alloc, rt.reader())?.read_to_end(&mut text)?;
    Ok(read_dimacs(alloc, &text)?)
}
