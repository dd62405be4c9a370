//! The reading of words by their places.
ghost use Rattle.std.specs.Prelude.{◌≡◌, ◌≤◌, ◌∷◌, IfOk, None, Some, true, map, length, string_bytes};
ghost use Rattle.std.specs.Option.{option_map};
ghost use Rattle.std.specs.Str.{bytes_eq};
ghost use Rattle.clap_words.specs.Commands.{seen_option, seen_row};
ghost use Rattle.clap_words.specs.Readings.{seen_given, seen_reading};
ghost use Rattle.sdcv_words.specs.Givens.{when};
ghost use Rattle.sdcv_words.specs.Places.{begun, by_place, has_needed, is_value, new_option, optioned, placed, row_of, seen_due, step, with_value};

use crate::givens::text_of;
use clap_words::{CommandRow, Form, Given, OptionRow, PositionRow, Reading, rows};
use std::alloc::{AllocError, Global};

// What comes next among the options.
#[derive(Clone, Copy)]
enum Due {
    Option,
    Value(&'static str),
}

/// Whether a word can stand for a value: it is not empty and does not begin with `-`.
pub fn is_value(word: &str) -> bool
    ensures { result ≡ is_value word.now }
{
    match word.as_bytes() {
        [] => false,
        [first, ..] => *first != b'-',
    }
}

// Whether the word is `--` and then the id.
fn is_option(word: &str, id: &str) -> bool
    ensures { result ≡ bytes_eq word.now (45 ∷ 45 ∷ id.now) }
{
    match word.as_bytes() {
        [b'-', b'-', rest @ ..] => rest == id.as_bytes(),
        _ => false,
    }
}

/// The command of this name.
pub fn row_of(name: &str) -> Option<CommandRow>
    ensures { option_map seen_row result ≡ row_of name.now }
{
    for row in rows() {
        if name == row.name {
            return Some(*row);
        }
    }
    None
}

// Puts a value last; answers whether the word can stand for one.
fn add_value<'a>(
    given: &mut Vec<Given<'a>>,
    id: &'static str,
    word: &'a str,
) -> Result<bool, AllocError>
    ensures { IfOk result (λ fits. when fits (map seen_given given.new.items)
        ≡ with_value (map seen_given given.old.items) id.entry.now word.entry.now) }
{
    if !is_value(word) {
        return Ok(false);
    }
    given.push(Given { id, text: word })?;
    Ok(true)
}

// Gives the words to the positions; answers whether each has one that can stand there.
fn place<'a>(
    given: &mut Vec<Given<'a>>,
    positions: &'static [PositionRow],
    words: &'a [String],
) -> Result<bool, AllocError>
    ensures given { IfOk result (λ fits. when fits (map seen_given given.new.items)
        ≡ placed (map seen_given given.old.items) (map (λ row. row.id.now) positions.now) (map string_bytes words.entry.now)) }
    ensures enough { IfOk result (λ fits. fits ≡ true → length positions.now ≤ length words.entry.now) }
{
    if words.len() < positions.len() {
        return Ok(false);
    }
    for index in 0..positions.len() {
        if !add_value(given, positions[index].id, words[index].as_str())? {
            return Ok(false);
        }
    }
    Ok(true)
}

// The option that the word begins, if it is one of these and is not given yet.
fn new_option(rows: &[OptionRow], given: &[Given<'_>], word: &str) -> Option<OptionRow>
    ensures { option_map seen_option result ≡ new_option (map seen_option rows.now) (map seen_given given.now) word.now }
{
    for row in rows {
        if is_option(word, row.id) {
            return if text_of(given, row.id).is_some() {
                None
            } else {
                Some(*row)
            };
        }
    }
    None
}

// What comes next after the word of an option.
fn begin<'a>(given: &mut Vec<Given<'a>>, row: OptionRow) -> Result<Due, AllocError>
    ensures { IfOk result (λ next. (seen_due next, map seen_given given.new.items)
        ≡ begun row.id.now row.form (map seen_given given.old.items)) }
{
    match row.form {
        Form::Flag => {
            given.push(Given {
                id: row.id,
                text: "true",
            })?;
            Ok(Due::Option)
        }
        Form::Valued | Form::Needed => Ok(Due::Value(row.id)),
    }
}

// What comes next after the word; `None` where it can't stand there.
fn step<'a>(
    rows: &[OptionRow],
    due: Due,
    given: &mut Vec<Given<'a>>,
    word: &'a str,
) -> Result<Option<Due>, AllocError>
    ensures { IfOk result (λ next. option_map (λ d. (seen_due d, map seen_given given.new.items)) next
        ≡ step (map seen_option rows.now) (seen_due due) (map seen_given given.old.items) word.entry.now) }
{
    match due {
        Due::Value(id) => {
            let fits = add_value(given, id, word)?;
            Ok(if fits { Some(Due::Option) } else { None })
        }
        Due::Option => {
            let Some(row) = new_option(rows, given, word) else {
                return Ok(None);
            };
            Ok(Some(begin(given, row)?))
        }
    }
}

// Takes the words as options; answers whether they are.
fn take_options<'a>(
    given: &mut Vec<Given<'a>>,
    rows: &'static [OptionRow],
    words: &'a [String],
) -> Result<bool, AllocError>
    ensures { IfOk result (λ fits. when fits (map seen_given given.new.items)
        ≡ optioned (map seen_option rows.now) None (map seen_given given.old.items) (map string_bytes words.entry.now)) }
{
    let mut due = Due::Option;
    for word in words {
        match step(rows, due, given, word.as_str())? {
            Some(next) => due = next,
            None => return Ok(false),
        }
    }
    Ok(matches!(due, Due::Option))
}

// Whether each option that always stands is given.
fn has_needed(rows: &[OptionRow], given: &[Given<'_>]) -> bool
    ensures { result ≡ has_needed (map seen_option rows.now) (map seen_given given.now) }
{
    for row in rows {
        if matches!(row.form, Form::Needed) && text_of(given, row.id).is_none() {
            return false;
        }
    }
    true
}

/// The command that the words name by their places, with the texts of its arguments.
pub fn by_place<'a>(alloc: Global, words: &'a [String]) -> Result<Option<Reading<'a>>, AllocError>
    ensures { IfOk result (λ found. option_map seen_reading found ≡ by_place (map string_bytes words.entry.now)) }
{
    let [name, rest @ ..] = words else {
        return Ok(None);
    };
    let Some(row) = row_of(name) else {
        return Ok(None);
    };
    let mut given = Vec::new(alloc);
    if !place(&mut given, row.positions, rest)? {
        return Ok(None);
    }
    let options = &rest[row.positions.len()..];
    if take_options(&mut given, row.options, options)? && has_needed(row.options, &given) {
        Ok(Some(Reading {
            name: row.name,
            given,
        }))
    } else {
        Ok(None)
    }
}
