use clap_words::{CommandRow, Form, ValueRule, rows};
use sdcv_words::command_of;
use std::alloc::{AllocError, Global};

// A text that keeps the rule.
fn sound(alloc: Global, rule: ValueRule) -> Result<String, AllocError> {
    match rule {
        ValueRule::Text => "x".to_string(alloc),
        ValueRule::Number { least, most: _ } => format!(in alloc; "{least}"),
        ValueRule::Ports => "p=0".to_string(alloc),
        ValueRule::Commands => "set_sense".to_string(alloc),
        ValueRule::Patterns => "RAM*".to_string(alloc),
        ValueRule::Name => "core".to_string(alloc),
    }
}

// The words of the positions, of which the one with this id has the text.
fn add_positions(
    alloc: Global,
    words: &mut Vec<String>,
    row: &CommandRow,
    id: &str,
    text: &str,
) -> Result<(), AllocError> {
    for position in row.positions {
        let word = if position.id == id {
            text.to_string(alloc)?
        } else {
            sound(alloc, position.rule)?
        };
        words.push(word)?;
    }
    Ok(())
}

// The words of the options that always stand, and of the one with this id, which has the text.
fn add_options(
    alloc: Global,
    words: &mut Vec<String>,
    row: &CommandRow,
    id: &str,
    text: &str,
) -> Result<(), AllocError> {
    for option in row.options {
        let is_it = option.id == id;
        if is_it || matches!(option.form, Form::Needed) {
            let id = option.id;
            words.push(format!(in alloc; "--{id}")?)?;
            words.push(if is_it {
                text.to_string(alloc)?
            } else {
                sound(alloc, option.rule)?
            })?;
        }
    }
    Ok(())
}

// Whether words in which this argument has the text name a command.
fn is_taken(alloc: Global, row: &CommandRow, id: &str, text: &str) -> Result<bool, AllocError> {
    let mut words = Vec::new(alloc);
    words.push(row.name.to_string(alloc)?)?;
    add_positions(alloc, &mut words, row, id, text)?;
    add_options(alloc, &mut words, row, id, text)?;
    Ok(command_of(alloc, &words)?.is_some())
}

// Whether words in which this argument has the number name a command.
fn takes(alloc: Global, row: &CommandRow, id: &str, number: u64) -> Result<bool, AllocError> {
    let text = format!(in alloc; "{number}")?;
    is_taken(alloc, row, id, text.as_str())
}

// Whether it takes the number before this one.
fn takes_before(
    alloc: Global,
    row: &CommandRow,
    id: &str,
    number: u64,
) -> Result<bool, AllocError> {
    match number.checked_sub(1) {
        Some(before) => takes(alloc, row, id, before),
        None => Ok(false),
    }
}

// Whether it takes the number after this one.
fn takes_after(alloc: Global, row: &CommandRow, id: &str, number: u64) -> Result<bool, AllocError> {
    match number.checked_add(1) {
        Some(after) => takes(alloc, row, id, after),
        None => is_taken(alloc, row, id, "18446744073709551616"),
    }
}

// Whether it takes a text that keeps the rule.
fn takes_sound(
    alloc: Global,
    row: &CommandRow,
    id: &str,
    rule: ValueRule,
) -> Result<bool, AllocError> {
    let text = sound(alloc, rule)?;
    is_taken(alloc, row, id, text.as_str())
}

// Whether the numbers that this argument takes are those of its rule, at both ends.
fn has_these_ends(
    alloc: Global,
    row: &CommandRow,
    id: &str,
    rule: ValueRule,
) -> Result<bool, AllocError> {
    let ValueRule::Number { least, most } = rule else {
        return takes_sound(alloc, row, id, rule);
    };
    let ends = takes(alloc, row, id, least)? && takes(alloc, row, id, most)?;
    Ok(ends && !takes_before(alloc, row, id, least)? && !takes_after(alloc, row, id, most)?)
}

// The ranges of the table, which help tells, are those by which words are judged.
#[test]
fn each_number_is_taken_within_the_range_of_its_row(rt: HostRuntime) -> Result<(), AllocError> {
    for row in rows() {
        let name = row.name;
        for position in row.positions {
            let id = position.id;
            assert!(rt;
                has_these_ends(rt.alloc(), row, id, position.rule)?,
                "{name} {id}"
            );
        }
        for option in row.options {
            let id = option.id;
            if !matches!(option.form, Form::Flag) {
                assert!(rt;
                    has_these_ends(rt.alloc(), row, id, option.rule)?,
                    "{name} {id}"
                );
            }
        }
    }
    Ok(())
}
