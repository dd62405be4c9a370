//! What each command reads, and what it prints or saves.
ghost use Rattle.std.specs.Prelude.{◌≤◌};

use crate::commands::{Asked, DesignWords, RunWords};
use crate::ends::{Answer, Ended, or_ended, quiet};
use crate::gates::gate_answer;
use crate::reads::{AskedForms, RunTexts, bytes_of, forms_of, run_texts, texts_of};
use run_options::Reset;
use sdcv_base::Host;
use std::alloc::Global;
use view_commands::{Difference, NamedText, Stop, bits, diff, groups, reset_of, shown, waved};

/// Does what the words ask for.
pub fn answer<H: Host>(alloc: Global, host: &mut H, asked: &Asked<'_>) -> Result<Answer, Ended> {
    match *asked {
        Asked::Groups { report, csv } => quiet(alloc, print_groups(alloc, host, report, csv)),
        Asked::Gate(words) => gate_answer(alloc, host, &words),
        Asked::Diff { old, new } => quiet(alloc, print_diff(alloc, host, old, new)),
        Asked::Bits(words) => quiet(alloc, print_bits(alloc, host, &words)),
        Asked::Show(words) => quiet(alloc, tell_run(alloc, host, &words, None)),
        Asked::Wave { run, out } => quiet(alloc, tell_run(alloc, host, &run, Some(out))),
    }
}

fn print_text<H: Host>(host: &mut H, text: &[u8]) -> Result<u8, Ended> {
    host.print(text)?;
    Ok(0)
}

fn printed<H: Host>(host: &mut H, told: Result<Vec<u8>, Stop>) -> Result<u8, Ended> {
    match told {
        Ok(text) => print_text(host, &text),
        Err(stop) => Err(Ended::Stopped(stop)),
    }
}

fn save_text<H: Host>(host: &mut H, out: &str, text: &[u8]) -> Result<u8, Ended> {
    host.save(out, text)?;
    Ok(0)
}

fn saved<H: Host>(host: &mut H, out: &str, told: Result<Vec<u8>, Stop>) -> Result<u8, Ended> {
    match told {
        Ok(text) => save_text(host, out, &text),
        Err(stop) => Err(Ended::Stopped(stop)),
    }
}

// Prints a report by groups, or the groups as comma-separated values.
fn print_groups<H: Host>(alloc: Global, host: &mut H, name: &str, csv: bool) -> Result<u8, Ended> {
    let report = bytes_of(alloc, host, name)?;
    printed(host, groups(alloc, name, &report, csv))
}

fn diff_of<H: Host>(
    alloc: Global,
    host: &mut H,
    old: &str,
    new: &str,
) -> Result<Difference, Ended> {
    let olds = bytes_of(alloc, host, old)?;
    let news = bytes_of(alloc, host, new)?;
    let olds = NamedText {
        name: old,
        text: &olds,
    };
    let news = NamedText {
        name: new,
        text: &news,
    };
    or_ended(diff(alloc, &olds, &news))
}

// Prints how a report differs from an older one; the status is 0 where it does not, and else 1.
fn print_diff<H: Host>(alloc: Global, host: &mut H, old: &str, new: &str) -> Result<u8, Ended> {
    let made = diff_of(alloc, host, old, new)?;
    host.print(&made.text)?;
    Ok(made.status)
}

// Prints a line for each bit of a stimulus.
fn print_bits<H: Host>(alloc: Global, host: &mut H, words: &DesignWords<'_>) -> Result<u8, Ended> {
    let reset = reset_of(alloc, &words.reset)?;
    let forms = forms_of(alloc, words)?;
    print_bits_with(alloc, host, words, reset, forms)
}

fn print_bits_with<H: Host>(
    alloc: Global,
    host: &mut H,
    words: &DesignWords<'_>,
    reset: Reset,
    forms: AskedForms,
) -> Result<u8, Ended>
    requires { reset.len ≤ 64 }
{
    let texts = texts_of(alloc, host, words, forms)?;
    printed(host, bits(alloc, &texts, reset))
}

// Tells the run that violates a pair: prints it, or saves it as a value change dump under the name.
fn tell_run<H: Host>(
    alloc: Global,
    host: &mut H,
    words: &RunWords<'_>,
    out: Option<&str>,
) -> Result<u8, Ended> {
    let reset = reset_of(alloc, &words.design.reset)?;
    let forms = forms_of(alloc, &words.design)?;
    tell_run_with(alloc, host, words, out, reset, forms)
}

fn tell_run_with<H: Host>(
    alloc: Global,
    host: &mut H,
    words: &RunWords<'_>,
    out: Option<&str>,
    reset: Reset,
    forms: AskedForms,
) -> Result<u8, Ended>
    requires { reset.len ≤ 64 }
{
    let RunTexts { texts, report } = run_texts(alloc, host, words, forms)?;
    match out {
        None => printed(host, shown(alloc, &words.pair, &texts, reset, report)),
        Some(out) => saved(host, out, waved(alloc, &words.pair, &texts, reset, report)),
    }
}
