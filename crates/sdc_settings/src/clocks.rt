//! The clock port of a script.
ghost use Rattle.std.specs.Prelude.{◌≡◌, IfOk, IfErr};
ghost use Rattle.sdc_settings.specs.Settings as spec;
ghost use Rattle.sdc_settings.specs.Settings.{HasClock, source_of};
ghost use Rattle.sdc_settings.specs.Sources.{source_bit as bit_of_source};
ghost use Rattle.sdc_settings.specs.Causes.{IsClockCause};
ghost use Rattle.sdc_settings.specs.Stages.{IsNextAsked};

use crate::cases::is_clock;
use crate::sources::{clock_name, source_bit};
use linked_types::PortName;
use script_types::{Command, Object, Script, What};
use sdcv_base::{Name, Seq};
use selected_types::ExpandFault;
use std::alloc::{AllocError, Global};

/// The name of the clock's port bit. `None` where no clock has a source, and none is asked for.
pub(crate) fn clock(
    alloc: Global,
    script: &Script,
    inputs: &Seq<PortName>,
    asked: &Option<Name>,
) -> Result<Option<Name>, ExpandFault>
    ensures ok { IfOk result (HasClock script.now inputs.now asked.now) }
    ensures err { IfErr result (IsClockCause script.now inputs.now asked.now) }
{
    let commands = &script.commands;
    let Some(first) = next_asked(alloc, inputs, asked, commands, 0)? else {
        return match asked {
            Some(name) => Err(ExpandFault::NoClock(name.copy(alloc)?)),
            None => Ok(None),
        };
    };
    let command = commands.item(first - 1);
    if let Some(second) = next_asked(alloc, inputs, asked, commands, first)? {
        let other = commands.item(second - 1);
        return Err(ExpandFault::TwoClocks(command.line, other.line));
    }
    match bit_of(alloc, command, inputs)? {
        Some(bit) => Ok(Some(bit)),
        None => Err(ExpandFault::ClockNotPort(command.line)),
    }
}

// How many commands are passed up to and with the next clock that may be judged, after those that were passed.
fn next_asked(
    alloc: Global,
    inputs: &Seq<PortName>,
    asked: &Option<Name>,
    commands: &Seq<Command>,
    from: usize,
) -> Result<Option<usize>, AllocError>
    ensures { IfOk result (IsNextAsked inputs.now asked.now commands.now from) }
{
    for place in from..commands.len() {
        if is_asked(alloc, inputs, asked, commands.item(place))? {
            return Ok(Some(place + 1));
        }
    }
    Ok(None)
}

fn is_asked(
    alloc: Global,
    inputs: &Seq<PortName>,
    asked: &Option<Name>,
    command: &Command,
) -> Result<bool, AllocError>
    ensures { IfOk result (λ is. is ≡ spec.is_asked inputs.now asked.now command.now) }
{
    match &command.what {
        What::Clock { name, source } => is_asked_clock(alloc, inputs, asked, name, source),
        What::Case { .. }
        | What::Claiming(_)
        | What::Hold(_)
        | What::Aside(_)
        | What::Passed
        | What::Unjudged(_)
        | What::Scope(_)
        | What::Generated { .. }
        | What::Delay { .. } => Ok(false),
    }
}

fn is_asked_clock(
    alloc: Global,
    inputs: &Seq<PortName>,
    asked: &Option<Name>,
    own: &Option<Name>,
    source: &Seq<Object>,
) -> Result<bool, AllocError>
    ensures { IfOk result (λ is. is ≡ spec.is_asked_clock inputs.now asked.now own.now source.now) }
{
    if source.is_empty() {
        return Ok(false);
    }
    match asked {
        Some(asked) => Ok(is_clock(&clock_name(alloc, inputs, own, source)?, asked)),
        None => Ok(true),
    }
}

// The input bit that the source of a command is.
#[tactic(auto, unfolding(crate::specs::Sources::source_bit))]
fn bit_of(
    alloc: Global,
    command: &Command,
    inputs: &Seq<PortName>,
) -> Result<Option<Name>, AllocError>
    ensures { IfOk result (λ bit. bit ≡ bit_of_source inputs.now (source_of command.now.what)) }
{
    match &command.what {
        What::Clock { source, .. } => source_bit(alloc, inputs, source),
        What::Case { .. }
        | What::Claiming(_)
        | What::Hold(_)
        | What::Aside(_)
        | What::Passed
        | What::Unjudged(_)
        | What::Scope(_)
        | What::Generated { .. }
        | What::Delay { .. } => Ok(None),
    }
}
