//! The texts that the words give to a command's arguments.
ghost use Rattle.std.specs.Prelude.{◌≡◌, ◌≢◌, IfOk, IsNone, map, string_bytes};
ghost use Rattle.std.specs.Option.{option_map};
ghost use Rattle.clap.specs.Words.{found_of, kind_of, rows_of, subcommand_rows_of};
ghost use Rattle.clap.specs.declared.error.kind.ErrorKind.TheVariants.{OutOfMemory};
ghost use Rattle.clap_words.specs.Readings.{argument_ids, clap_reading, named, seen_given, seen_reading, texts_in};

use crate::apps::{Aim, sdcv};
use clap::error::ErrorKind;
use clap::{ArgMatches, Error};
use std::alloc::{AllocError, Global};

/// The text of an argument: the word at a position, the value of an option, or `true` for a flag that stands.
#[derive(Clone, Copy)]
pub struct Given<'a> {
    pub id: &'static str,
    pub text: &'a str,
}

/// The name of a command, and the texts of its arguments.
#[derive(Drop)]
pub struct Reading<'a> {
    pub name: &'a str,
    pub given: Vec<Given<'a>>,
}

// The ids of the arguments of all commands, each once, in the order of the table.
const IDS: [&str; 26] = [
    "V",
    "L",
    "S",
    "out",
    "hazard",
    "lag",
    "hold",
    "free",
    "clock",
    "top",
    "skip",
    "strict",
    "json",
    "reset",
    "reset-cycles",
    "depth",
    "budget",
    "inv-depth",
    "assist",
    "CERT",
    "REPORT",
    "PAIR",
    "SEED",
    "SIZE",
    "bound",
    "symbols",
];

fn ids() -> &'static [&'static str]
    ensures { map (λ id. id.now) result.now ≡ argument_ids }
{
    &IDS
}

fn texts_in<'a>(alloc: Global, matches: &ArgMatches<'a>) -> Result<Vec<Given<'a>>, AllocError>
    ensures { IfOk result (λ all. map seen_given all.items ≡ texts_in (rows_of (found_of matches.now))) }
{
    let mut all = Vec::new(alloc);
    for id in ids() {
        let Some(text) = matches.get_str(*id) else {
            continue;
        };
        all.push(Given { id: *id, text })?;
    }
    Ok(all)
}

fn entered<'a>(alloc: Global, matches: &ArgMatches<'a>) -> Result<Option<Reading<'a>>, AllocError>
    ensures { IfOk result (λ found. option_map seen_reading found ≡ option_map named (subcommand_rows_of matches.now)) }
{
    match matches.subcommand() {
        Some((name, inner)) => {
            let given = texts_in(alloc, inner)?;
            Ok(Some(Reading { name, given }))
        }
        None => Ok(None),
    }
}

// No reading, unless the error is want of memory.
fn none_for<'a>(error: &Error) -> Result<Option<Reading<'a>>, AllocError>
    ensures { IfOk result (λ found. IsNone found × (kind_of error.now ≢ OutOfMemory)) }
{
    match error.kind() {
        ErrorKind::OutOfMemory => Err(AllocError),
        _ => Ok(None),
    }
}

/// The command that `clap` finds in the words, if it takes them.
pub fn reading_of<'a>(alloc: Global, words: &'a [String]) -> Result<Option<Reading<'a>>, AllocError>
    ensures { IfOk result (λ found. option_map seen_reading found ≡ clap_reading (map string_bytes words.entry.now)) }
{
    let command = sdcv(alloc, Aim::Read)?;
    match command.try_get_matches_from(words) {
        Ok(matches) => entered(alloc, &matches),
        Err(error) => none_for(&error),
    }
}
