//! The command for `clap`, built from the table.
ghost use Rattle.std.specs.Prelude.{◌≡◌, IfOk, Some, false};
ghost use Rattle.clap.specs.Words.{rule_of};
ghost use Rattle.clap.specs.declared.builder.ArgAction.TheVariants.{Set};
ghost use Rattle.clap_words.specs.Apps.{IsCommand, Makes, app_from, option_rule, position_rule};
ghost use Rattle.clap_words.specs.Apps.{sdcv_app, top_app, with_options, with_positions};
ghost use Rattle.clap_words.specs.declared.apps.Aim.TheVariants.{Read};

use crate::commands::{ABOUT, CommandRow, Form, OptionRow, PositionRow, rows};
use crate::rules::ValueRule;
use clap::builder::ValueParser;
use clap::{Arg, ArgAction, Command};
use std::alloc::{AllocError, Global};

/// What a command is built for.
#[derive(Clone, Copy)]
pub enum Aim {
    /// To read words: each text is a value. `sdcv_words` judges it.
    Read,
    /// To tell of words: there is help, help names the values, and a number has to lie in its range.
    Tell,
}

fn parser_of<'a>(rule: ValueRule) -> ValueParser<'a> {
    match rule {
        ValueRule::Number { least, most } => ValueParser::unsigned(least, most),
        ValueRule::Text
        | ValueRule::Ports
        | ValueRule::Commands
        | ValueRule::Patterns
        | ValueRule::Name => ValueParser::string(),
    }
}

// Gives the argument one value, which help calls by that name.
fn valued<'a>(arg: Arg<'a>, name: &'a str, rule: ValueRule, aim: Aim) -> Arg<'a>
    ensures rule { aim ≡ Read → result ≡ record arg.entry { action = Some Set } }
    ensures local { result.global ≡ arg.entry.global }
{
    let set = arg.action(ArgAction::Set);
    match aim {
        Aim::Read => set,
        Aim::Tell => set.value_name(name).value_parser(parser_of(rule)),
    }
}

fn position<'a>(alloc: Global, row: PositionRow, aim: Aim) -> Arg<'a>
    ensures rule { aim ≡ Read → rule_of result ≡ position_rule row.id.now }
    ensures local { result.global ≡ false }
{
    let arg = Arg::new(alloc, row.id).help(row.sentence).required(true);
    valued(arg, row.id, row.rule, aim)
}

fn option<'a>(alloc: Global, row: OptionRow, aim: Aim) -> Arg<'a>
    ensures rule { aim ≡ Read → rule_of result ≡ option_rule row.id.now row.form }
    ensures local { result.global ≡ false }
{
    let arg = Arg::new(alloc, row.id).long(row.id).help(row.sentence);
    match row.form {
        Form::Flag => arg.action(ArgAction::SetTrue),
        Form::Valued => valued(arg, row.value, row.rule, aim),
        Form::Needed => valued(arg.required(true), row.value, row.rule, aim),
    }
}

fn with_positions<'a>(
    alloc: Global,
    start: Command<'a>,
    positions: &'static [PositionRow],
    aim: Aim,
) -> Result<Command<'a>, AllocError>
    ensures { IfOk result (λ made. aim ≡ Read → Makes start.entry (with_positions positions.now) made) }
{
    let mut command = start;
    for row in positions {
        command = command.arg(position(alloc, *row, aim))?;
    }
    Ok(command)
}

fn with_options<'a>(
    alloc: Global,
    start: Command<'a>,
    options: &'static [OptionRow],
    aim: Aim,
) -> Result<Command<'a>, AllocError>
    ensures { IfOk result (λ made. aim ≡ Read → Makes start.entry (with_options options.now) made) }
{
    let mut command = start;
    for row in options {
        command = command.arg(option(alloc, *row, aim))?;
    }
    Ok(command)
}

// The subcommand of a row.
fn subcommand<'a>(alloc: Global, row: CommandRow, aim: Aim) -> Result<Command<'a>, AllocError>
    ensures { IfOk result (λ made. aim ≡ Read → IsCommand (app_from row) made) }
{
    let named = Command::new(alloc, row.name).about(row.sentence);
    let placed = with_positions(alloc, named, row.positions, aim)?;
    with_options(alloc, placed, row.options, aim)
}

// The command without its subcommands. Words that it reads ask for no help or version.
fn top<'a>(alloc: Global, aim: Aim) -> Result<Command<'a>, AllocError>
    ensures { IfOk result (λ made. aim ≡ Read → IsCommand top_app made) }
{
    let named = Command::new(alloc, "sdcv").no_binary_name(true);
    match aim {
        Aim::Read => Ok(named.disable_help_flag(true).disable_help_subcommand(true)),
        Aim::Tell => named
            .about(ABOUT)
            .arg_required_else_help(true)
            .subcommand_required(true)
            .bin_name("sdcv"),
    }
}

/// The whole command. Its words leave out the program's own name.
pub fn sdcv<'a>(alloc: Global, aim: Aim) -> Result<Command<'a>, AllocError>
    ensures { IfOk result (λ made. aim ≡ Read → IsCommand sdcv_app made) }
{
    let mut command = top(alloc, aim)?;
    for row in rows() {
        let sub = subcommand(alloc, *row, aim)?;
        command = command.subcommand(sub)?;
    }
    Ok(command)
}
