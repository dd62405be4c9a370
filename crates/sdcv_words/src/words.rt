//! The command that words name.
ghost use Rattle.std.specs.Prelude.{◌≡◌, IfOk, IfSome, map, string_bytes};
ghost use Rattle.std.specs.Option.{option_map};
ghost use Rattle.clap_words.specs.Readings.{seen_reading};
ghost use Rattle.sdcv_words.specs.Commands.{seen_command};
ghost use Rattle.sdcv_words.specs.Jobs.{judged_if};
ghost use Rattle.sdcv_words.specs.Ranges.{IsInRange};
ghost use Rattle.sdcv_words.specs.Words.{command};

use crate::commands::Command;
use crate::jobs::judged;
use crate::places::by_place;
use clap_words::{Reading, reading_of};
use std::alloc::{AllocError, Global};

fn judged_if<'a>(
    alloc: Global,
    reading: Option<Reading<'a>>,
) -> Result<Option<Command<'a>>, AllocError>
    ensures { IfOk result (λ found. option_map seen_command found ≡ judged_if (option_map seen_reading reading.entry)) }
{
    match reading {
        Some(reading) => judged(alloc, &reading),
        None => Ok(None),
    }
}

// By their places, and else as `clap` takes them.
fn named<'a>(alloc: Global, words: &'a [String]) -> Result<Option<Command<'a>>, AllocError>
    ensures { IfOk result (λ found. option_map seen_command found ≡ command (map string_bytes words.entry.now)) }
{
    let placed = judged_if(alloc, by_place(alloc, words)?)?;
    if placed.is_some() {
        return Ok(placed);
    }
    judged_if(alloc, reading_of(alloc, words)?)
}

/// The command that the words name: by their places, and else as `clap` takes them. Its numbers lie in their ranges.
pub fn command_of<'a>(alloc: Global, words: &'a [String]) -> Result<Option<Command<'a>>, AllocError>
    ensures named { IfOk result (λ found. option_map seen_command found ≡ command (map string_bytes words.entry.now)) }
    ensures in_range { IfOk result (λ found. IfSome (option_map seen_command found) IsInRange) }
{
    named(alloc, words)
}
