//! The lines of an exception.
ghost use Rattle.std.specs.Prelude.{◌≡◌, ◌≤◌, length, IfOk, IfSome};
ghost use Rattle.report_rows.specs.Words.{texts, when};
ghost use Rattle.report_rows.specs.Lines as spec;

use crate::cuts::{is_word, joined, number_at, part, rest_from};
use crate::reports::{Report, Said, ScriptRow};
use std::alloc::{AllocError, Global};

/// What is found at the places of an exception's line. What it does is said by the words from the fifth up to a place.
#[derive(Clone, Copy)]
pub struct CommandPlaces {
    pub command: u64,
    pub line: u64,
    pub upto: usize,
    pub pairs: u64,
}

fn claims_nothing(words: &[&[u8]]) -> bool
    ensures { result ≡ spec.claims_nothing (texts words.now) }
{
    is_word(words, 4, b"hold") || is_word(words, 4, b"aside")
}

#[tactic(auto, unfolding(crate::specs::Lines::claimed_of))]
fn claimed_of(words: &[&[u8]]) -> Option<u64>
    ensures value { result ≡ spec.claimed_of (texts words.now) }
    ensures room { IfSome result (λ _. 6 ≤ length words.now) }
{
    let count = words.len();
    if count > 6 && is_word(words, count - 2, b"pairs") {
        number_at(words, count - 1)
    } else {
        None
    }
}

// Where the words end that say what it does, and of how many pairs it claims that.
#[tactic(auto, unfolding(crate::specs::Lines::deed_of))]
fn deed_of(words: &[&[u8]]) -> Option<(usize, u64)>
    ensures { result ≡ spec.deed_of (texts words.now) }
{
    if claims_nothing(words) {
        return Some((words.len(), 0));
    }
    let pairs = claimed_of(words)?;
    Some((words.len() - 2, pairs))
}

#[tactic(auto, unfolding(crate::specs::Lines::command_of))]
fn command_of(words: &[&[u8]]) -> Option<CommandPlaces>
    ensures { result ≡ spec.command_of (texts words.now) }
{
    if !is_word(words, 2, b"line") {
        return None;
    }
    let command = number_at(words, 1)?;
    let line = number_at(words, 3)?;
    let (upto, pairs) = deed_of(words)?;
    Some(CommandPlaces {
        command,
        line,
        upto,
        pairs,
    })
}

// The row of an exception's line.
fn command_row(
    alloc: Global,
    words: &[&[u8]],
    places: &CommandPlaces,
) -> Result<ScriptRow, AllocError>
    ensures { IfOk result (λ row. row ≡ spec.command_row (texts words.now) places.now) }
{
    let what = joined(alloc, part(words, 4, places.upto))?;
    Ok(ScriptRow {
        command: places.command,
        line: places.line,
        said: Said::Does(what, places.pairs),
    })
}

/// Adds the row of an exception's line; answers whether it is one.
pub(crate) fn add_command(
    alloc: Global,
    found: &mut Report,
    words: &[&[u8]],
) -> Result<bool, AllocError>
    ensures { IfOk result (λ fits. when fits found.new ≡ spec.with_command found.old (texts words.now)) }
{
    let Some(places) = command_of(words) else {
        return Ok(false);
    };
    found.script.push(command_row(alloc, words, &places)?)?;
    Ok(true)
}

// The line in the script of the exception on which a warning is.
#[tactic(auto, unfolding(crate::specs::Lines::warned_line))]
fn warned_line(found: &Report, command: u64) -> Option<u64>
    ensures { result ≡ spec.warned_line found.now command }
{
    let last = found.script.as_slice().last()?;
    if last.command == command {
        Some(last.line)
    } else {
        None
    }
}

// The number of the exception on which a warning is, and its line in the script.
#[tactic(auto, unfolding(crate::specs::Lines::warned_of))]
fn warned_of(found: &Report, words: &[&[u8]]) -> Option<(u64, u64)>
    ensures { result ≡ spec.warned_of found.now (texts words.now) }
{
    if !is_word(words, 1, b"command") {
        return None;
    }
    let command = number_at(words, 2)?;
    Some((command, warned_line(found, command)?))
}

/// Adds the row of a warning's line; answers whether it is one.
pub(crate) fn add_warning(
    alloc: Global,
    found: &mut Report,
    words: &[&[u8]],
) -> Result<bool, AllocError>
    ensures { IfOk result (λ fits. when fits found.new ≡ spec.with_warning found.old (texts words.now)) }
{
    let Some((command, line)) = warned_of(found, words) else {
        return Ok(false);
    };
    let text = joined(alloc, rest_from(words, 3))?;
    found.script.push(ScriptRow {
        command,
        line,
        said: Said::Warns(text),
    })?;
    Ok(true)
}
