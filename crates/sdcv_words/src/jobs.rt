//! The command of a reading, judged.
ghost use Rattle.std.specs.Prelude.{◌≡◌, IfOk, Some, map};
ghost use Rattle.std.specs.Option.{option_map};
ghost use Rattle.clap_words.specs.Readings.{seen_given, seen_reading};
ghost use Rattle.sdcv_words.specs.Commands.{seen_command, seen_finding, seen_job, seen_mending, seen_texts};
ghost use Rattle.sdcv_words.specs.Jobs.{aiger_of, check_of, demo_of, detect_of, finding_of, job_of, late_only};
ghost use Rattle.sdcv_words.specs.Jobs.{judged, mend_of, mending_of, over_of, replay_of, texts_of, verify_of, watching_of, without_hazards};

use crate::commands::{Command, Finding, Job, Mending, Options, Texts};
use crate::givens::{stands, text_of};
use crate::numbers::{number_in, number_or};
use crate::options::{options_of, proving_of};
use clap_words::{Given, Reading};
use run_options::Judging;
use std::alloc::{AllocError, Global};

fn texts_of<'a>(given: &[Given<'a>]) -> Option<Texts<'a>>
    ensures { option_map seen_texts result ≡ texts_of (map seen_given given.now) }
{
    Some(Texts {
        netlist: text_of(given, "V")?,
        cells: text_of(given, "L")?,
        constraints: text_of(given, "S")?,
    })
}

fn verify_of<'a>(given: &[Given<'a>]) -> Option<Job<'a>>
    ensures { option_map seen_job result ≡ verify_of (map seen_given given.now) }
{
    Some(Job::Verify {
        out: text_of(given, "out")?,
        json: stands(given, "json"),
        proving: proving_of(given)?,
        assist: text_of(given, "assist"),
    })
}

fn check_of<'a>(given: &[Given<'a>]) -> Option<Job<'a>>
    ensures { option_map seen_job result ≡ check_of (map seen_given given.now) }
{
    Some(Job::Check {
        cert: text_of(given, "CERT")?,
    })
}

fn replay_of<'a>(given: &[Given<'a>]) -> Option<Job<'a>>
    ensures { option_map seen_job result ≡ replay_of (map seen_given given.now) }
{
    Some(Job::Replay {
        report: text_of(given, "REPORT")?,
        pair: number_in(text_of(given, "PAIR")?, 1, u64::MAX)?,
    })
}

fn job_of<'a>(name: &str, given: &[Given<'a>]) -> Option<Job<'a>>
    ensures { option_map seen_job result ≡ job_of name.now (map seen_given given.now) }
{
    match name {
        "verify" => verify_of(given),
        "check" => check_of(given),
        "replay" => replay_of(given),
        _ => None,
    }
}

fn over_of<'a>(
    alloc: Global,
    name: &str,
    given: &[Given<'a>],
) -> Result<Option<Command<'a>>, AllocError>
    ensures { IfOk result (λ found. option_map seen_command found ≡ over_of name.now (map seen_given given.now)) }
{
    let Some(texts) = texts_of(given) else {
        return Ok(None);
    };
    let Some(job) = job_of(name, given) else {
        return Ok(None);
    };
    let Some(options) = options_of(alloc, given)? else {
        return Ok(None);
    };
    Ok(Some(Command::Over {
        texts,
        options,
        job,
    }))
}

fn finding_of<'a>(given: &[Given<'a>]) -> Option<Finding<'a>>
    ensures { option_map seen_finding result ≡ finding_of (map seen_given given.now) }
{
    let out = text_of(given, "out")?;
    let proving = proving_of(given)?;
    let bound = number_or(text_of(given, "bound"), 4, 2, 16)?;
    Some(Finding {
        out,
        proving,
        bound: bound as u8,
        hold: stands(given, "hold"),
    })
}

fn late_only(options: Options) -> Options
    ensures { result ≡ late_only options }
{
    let Options {
        judging,
        forms,
        reset,
    } = options;
    let judging = Judging {
        hold: false,
        ..judging
    };
    Options {
        judging,
        forms,
        reset,
    }
}

// Pairs are found by their late side.
fn detect_of<'a>(alloc: Global, given: &[Given<'a>]) -> Result<Option<Command<'a>>, AllocError>
    ensures { IfOk result (λ found. option_map seen_command found ≡ detect_of (map seen_given given.now)) }
{
    let Some(texts) = texts_of(given) else {
        return Ok(None);
    };
    let Some(finding) = finding_of(given) else {
        return Ok(None);
    };
    let Some(options) = options_of(alloc, given)? else {
        return Ok(None);
    };
    let options = late_only(options);
    Ok(Some(Command::Detect {
        texts,
        options,
        finding,
    }))
}

fn mending_of<'a>(given: &[Given<'a>]) -> Option<Mending<'a>>
    ensures { option_map seen_mending result ≡ mending_of (map seen_given given.now) }
{
    Some(Mending {
        out: text_of(given, "out")?,
        proving: proving_of(given)?,
        assist: text_of(given, "assist"),
    })
}

fn mend_of<'a>(alloc: Global, given: &[Given<'a>]) -> Result<Option<Command<'a>>, AllocError>
    ensures { IfOk result (λ found. option_map seen_command found ≡ mend_of (map seen_given given.now)) }
{
    let Some(texts) = texts_of(given) else {
        return Ok(None);
    };
    let Some(mending) = mending_of(given) else {
        return Ok(None);
    };
    let Some(options) = options_of(alloc, given)? else {
        return Ok(None);
    };
    Ok(Some(Command::Mend {
        texts,
        options,
        mending,
    }))
}

fn watching_of<'a>(given: &[Given<'a>]) -> Option<Job<'a>>
    ensures { option_map seen_job result ≡ watching_of (map seen_given given.now) }
{
    Some(Job::Aiger {
        out: text_of(given, "out")?,
        pair: number_in(text_of(given, "PAIR")?, 1, u64::MAX)?,
        symbols: stands(given, "symbols"),
    })
}

fn without_hazards(options: Options) -> Options
    ensures { result ≡ without_hazards options }
{
    let Options {
        judging,
        forms,
        reset,
    } = options;
    let judging = Judging {
        hazard: false,
        ..judging
    };
    Options {
        judging,
        forms,
        reset,
    }
}

// A claim is watched without hazards.
fn aiger_of<'a>(alloc: Global, given: &[Given<'a>]) -> Result<Option<Command<'a>>, AllocError>
    ensures { IfOk result (λ found. option_map seen_command found ≡ aiger_of (map seen_given given.now)) }
{
    let Some(texts) = texts_of(given) else {
        return Ok(None);
    };
    let Some(job) = watching_of(given) else {
        return Ok(None);
    };
    let Some(options) = options_of(alloc, given)? else {
        return Ok(None);
    };
    let options = without_hazards(options);
    Ok(Some(Command::Over {
        texts,
        options,
        job,
    }))
}

fn demo_of<'a>(given: &[Given<'a>]) -> Option<Command<'a>>
    ensures { option_map seen_command result ≡ demo_of (map seen_given given.now) }
{
    let seed = number_in(text_of(given, "SEED")?, 0, u64::MAX)?;
    let size = number_in(text_of(given, "SIZE")?, 1, 160)?;
    Some(Command::Demo {
        seed,
        size: size as usize,
    })
}

/// The command of these texts, if each keeps its rule.
pub fn judged<'a>(alloc: Global, reading: &Reading<'a>) -> Result<Option<Command<'a>>, AllocError>
    ensures { IfOk result (λ found. option_map seen_command found ≡ judged (seen_reading reading.now)) }
{
    match reading.name {
        "demo" => Ok(demo_of(&reading.given)),
        "detect" => detect_of(alloc, &reading.given),
        "aiger" => aiger_of(alloc, &reading.given),
        "mend" => mend_of(alloc, &reading.given),
        _ => over_of(alloc, reading.name, &reading.given),
    }
}
