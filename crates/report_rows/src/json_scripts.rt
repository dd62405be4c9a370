//! The exceptions of a report as JSON.
ghost use Rattle.std.specs.Prelude.{◌≡◌, IfOk, map};
ghost use Rattle.std.specs.Option.{option_map};
ghost use Rattle.serde_json.specs.View.{view};
ghost use Rattle.report_rows.specs.Words.{when};
ghost use Rattle.report_rows.specs.Members as spec;
ghost use Rattle.report_rows.specs.MemberParts.{seen_command};

use crate::members::{count_in, list_in, text_in};
use crate::reports::{Report, Said, ScriptRow};
use sdcv_base::Name;
use serde_json::Value;
use std::alloc::{AllocError, Global};

/// The members of an exception.
#[derive(Clone, Copy)]
pub struct CommandMembers<'v> {
    pub command: u64,
    pub line: u64,
    pub what: &'v str,
    pub pairs: u64,
}

#[tactic(auto, unfolding(crate::specs::Members::command_in))]
fn command_in<'v>(value: &'v Value) -> Option<CommandMembers<'v>>
    ensures { option_map seen_command result ≡ spec.command_in (view value.entry.now) }
{
    let command = count_in(value, "number")?;
    let line = count_in(value, "line")?;
    let what = text_in(value, "what")?;
    let pairs = count_in(value, "pairs")?;
    Some(CommandMembers {
        command,
        line,
        what,
        pairs,
    })
}

fn row_of(alloc: Global, command: &CommandMembers<'_>) -> Result<ScriptRow, AllocError>
    ensures { IfOk result (λ row. row ≡ seen_command command.now) }
{
    let what = Name::new(alloc, command.what.as_bytes())?;
    Ok(ScriptRow {
        command: command.command,
        line: command.line,
        said: Said::Does(what, command.pairs),
    })
}

// Adds a warning on an exception; answers whether the value is a text.
fn add_warning(
    alloc: Global,
    found: &mut Report,
    command: u64,
    line: u64,
    value: &Value,
) -> Result<bool, AllocError>
    ensures { IfOk result (λ fits. when fits found.new ≡ spec.with_warning_data command line found.old (view value.now)) }
{
    let Some(text) = value.as_str() else {
        return Ok(false);
    };
    let text = Name::new(alloc, text.as_bytes())?;
    found.script.push(ScriptRow {
        command,
        line,
        said: Said::Warns(text),
    })?;
    Ok(true)
}

// Adds the warnings on an exception; answers whether all values are texts.
fn add_warnings(
    alloc: Global,
    found: &mut Report,
    command: u64,
    line: u64,
    values: &[Value],
) -> Result<bool, AllocError>
    ensures { IfOk result (λ fits. when fits found.new ≡ spec.with_all (spec.with_warning_data command line) found.old (map view values.now)) }
{
    for value in values {
        if !add_warning(alloc, found, command, line, value)? {
            return Ok(false);
        }
    }
    Ok(true)
}

/// Adds the row of an exception and those of its warnings; answers whether the value is one.
pub(crate) fn add_command_value(
    alloc: Global,
    found: &mut Report,
    value: &Value,
) -> Result<bool, AllocError>
    ensures { IfOk result (λ fits. when fits found.new ≡ spec.with_command_data found.old (view value.now)) }
{
    let Some(command) = command_in(value) else {
        return Ok(false);
    };
    let Some(warnings) = list_in(value, "warnings") else {
        return Ok(false);
    };
    found.script.push(row_of(alloc, &command)?)?;
    add_warnings(alloc, found, command.command, command.line, warnings)
}
