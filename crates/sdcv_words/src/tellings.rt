//! What is told of words that name no command.
use crate::cuttings::{name_of, patterns_of};
use crate::givens::text_of;
use crate::numbers::number_in;
use crate::places::row_of;
use crate::settings::settings_of;
use crate::skips::skips_of;
use clap_words::{CommandRow, Given, ValueRule, reading_of};
use std::alloc::{AllocError, Global};

// Whether the text breaks the rule.
fn breaks(alloc: Global, rule: ValueRule, text: &str) -> Result<bool, AllocError> {
    match rule {
        ValueRule::Text => Ok(false),
        ValueRule::Number { least, most } => Ok(number_in(text, least, most).is_none()),
        ValueRule::Ports => Ok(settings_of(alloc, text)?.is_none()),
        ValueRule::Commands => Ok(skips_of(alloc, text)?.is_none()),
        ValueRule::Patterns => Ok(patterns_of(alloc, text)?.is_none()),
        ValueRule::Name => Ok(name_of(alloc, Some(text))?.is_none()),
    }
}

// Whether the argument is given by a text that breaks the rule.
fn is_broken(
    alloc: Global,
    given: &[Given<'_>],
    id: &str,
    rule: ValueRule,
) -> Result<bool, AllocError> {
    match text_of(given, id) {
        Some(text) => breaks(alloc, rule, text),
        None => Ok(false),
    }
}

// The first position whose word breaks its rule.
fn broken_position(
    alloc: Global,
    row: &CommandRow,
    given: &[Given<'_>],
) -> Result<Option<String>, AllocError> {
    for position in row.positions {
        if is_broken(alloc, given, position.id, position.rule)? {
            let id = position.id;
            let rule = position.rule;
            return Ok(Some(format!(in alloc; "sdcv: {id} takes {rule}\n")?));
        }
    }
    Ok(None)
}

// The first option whose value breaks its rule.
fn broken_option(
    alloc: Global,
    row: &CommandRow,
    given: &[Given<'_>],
) -> Result<Option<String>, AllocError> {
    for option in row.options {
        if is_broken(alloc, given, option.id, option.rule)? {
            let id = option.id;
            let rule = option.rule;
            return Ok(Some(format!(in alloc; "sdcv: --{id} takes {rule}\n")?));
        }
    }
    Ok(None)
}

// The first argument that breaks its rule, of words that `clap` takes.
fn broken(alloc: Global, words: &[String]) -> Result<Option<String>, AllocError> {
    let Some(reading) = reading_of(alloc, words)? else {
        return Ok(None);
    };
    let Some(row) = row_of(reading.name) else {
        return Ok(None);
    };
    let position = broken_position(alloc, &row, &reading.given)?;
    if position.is_some() {
        return Ok(position);
    }
    broken_option(alloc, &row, &reading.given)
}

/// What is told of words that name no command, with a line feed at its end: help or the version, if they ask for it, else
/// what is wrong with them.
pub fn told(alloc: Global, version: &str, words: &[String]) -> Result<String, AllocError> {
    if let Some(text) = clap_words::told(alloc, version, words)? {
        return Ok(text);
    }
    match broken(alloc, words)? {
        Some(text) => Ok(text),
        None => "sdcv: a value breaks its rule\n".to_string(alloc),
    }
}
