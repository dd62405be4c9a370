//! Commands one after the other.
ghost use Rattle.std.specs.Prelude.{◌≡◌, drop, IfSome, OnOk, Result, Ok};
ghost use Rattle.texts.specs.Rules.{Gives};
ghost use Rattle.sdc_values.specs.Told.{Fails};
ghost use Rattle.script_types.specs.declared.scripts.What.{What as TheWhat};
ghost use Rattle.script_types.specs.declared.faults.SdcFault.{SdcFault as TheFault};
ghost use Rattle.sdc_text.specs.Progresses as spec;

use crate::cases::{take_case, take_constant, take_set};
use crate::clocks::take_clock;
use crate::delays::take_delay;
use crate::exceptions::take_exception;
use crate::forms::{is_wide, nesting_of};
use crate::heads::Head;
use crate::kinds::{CommandKind, command_kind};
use crate::options::ClockCommand;
use crate::places::{take_instance, take_scope, take_separator};
use run_options::ScriptForm;
use script_types::{Command, What};
use sdc_values::{Nesting, Said, SdcFault, Variables, command_name, said_words};
use sdc_words::{RawCommand, Word};
use sdcv_base::{Name, Seq};
use std::alloc::{AllocError, Global};

/// What is known after some commands of a text.
#[derive(Drop)]
pub struct Progress {
    pub variables: Variables,
    pub commands: Seq<Command>,
}

impl Progress {
    /// Before the first command.
    pub fn new(alloc: Global) -> Progress
        ensures { result ≡ spec.fresh }
    {
        Progress {
            variables: Variables::new(alloc),
            commands: Seq::new(alloc),
        }
    }

    /// Adds what a command on this line says.
    pub fn push(&mut self, line: u64, what: What) -> Result<(), AllocError>
        ensures { OnOk result (self.new ≡ spec.with_command self.old line what) }
    {
        self.commands.push(Command { line, what })?;
        Ok(())
    }

    #[tactic(auto, unfolding(crate::specs::Progresses::after_set))]
    fn set(
        &mut self,
        alloc: Global,
        form: &ScriptForm,
        head: &Head,
        words: &[Word],
    ) -> Result<(), SdcFault>
        ensures { Gives Fails (λ _. self.new) result (spec.after_set_words form.now self.old head.now words.now) }
    {
        let (name, value) = {
            let said = said_words(alloc, nesting_of(form), &self.variables, head.line, words)?;
            take_set(alloc, head, said.as_slice())?
        };
        self.variables.set(name, value)?;
        self.push(head.line, What::Passed)?;
        Ok(())
    }

    fn tell(
        &mut self,
        alloc: Global,
        form: &ScriptForm,
        kind: CommandKind,
        head: Head,
        words: &[Word],
    ) -> Result<(), SdcFault>
        ensures { Gives Fails (λ _. self.new) result (spec.after_told_words form.now self.old kind head words.now) }
    {
        let line = head.line;
        let what = {
            let said = said_words(alloc, nesting_of(form), &self.variables, line, words)?;
            what_of(alloc, form, kind, head, said.as_slice())?
        };
        self.push(line, what)?;
        Ok(())
    }

    /// Takes a command that names the design; nothing is refused for its words.
    fn tell_scope(
        &mut self,
        alloc: Global,
        form: &ScriptForm,
        head: &Head,
        words: &[Word],
    ) -> Result<(), SdcFault>
        ensures { Gives Fails (λ _. self.new) result (spec.after_scope form.now self.old head.now words.now) }
    {
        let read = scope_by(alloc, nesting_of(form), &self.variables, head.line, words);
        let what = what_or(What::Passed, read)?;
        self.push(head.line, what)?;
        Ok(())
    }

    /// Takes a delay; nothing is refused for its words.
    fn tell_delay(
        &mut self,
        alloc: Global,
        output: bool,
        head: Head,
        words: &[Word],
    ) -> Result<(), SdcFault>
        ensures { Gives Fails (λ _. self.new) result (spec.after_delay self.old output head words.now) }
    {
        let Head { line, name } = head;
        let read = take_delay(alloc, output, &self.variables, line, words);
        let what = what_or(What::Unjudged(name), read)?;
        self.push(line, what)?;
        Ok(())
    }

    #[tactic(auto, unfolding(crate::specs::Progresses::after_kind))]
    fn take_words(
        &mut self,
        alloc: Global,
        form: &ScriptForm,
        kind: CommandKind,
        head: Head,
        words: &[Word],
    ) -> Result<(), SdcFault>
        ensures { Gives Fails (λ _. self.new) result (spec.after_kind form.now self.old kind head words.now) }
    {
        match kind {
            CommandKind::Passed => {
                self.push(head.line, What::Passed)?;
                Ok(())
            }
            CommandKind::Unjudged => {
                let Head { line, name } = head;
                self.push(line, What::Unjudged(name))?;
                Ok(())
            }
            CommandKind::Set => self.set(alloc, form, &head, words),
            CommandKind::Scope => self.tell_scope(alloc, form, &head, words),
            CommandKind::Delay(output) => self.tell_delay(alloc, output, head, words),
            _ => self.tell(alloc, form, kind, head, words),
        }
    }

    /// What a command that begins like this one says, where it is passed over; `None` also where memory runs out.
    pub fn passes_over(&self, alloc: Global, form: &ScriptForm, front: &RawCommand) -> Option<What>
        ensures { IfSome result (λ what. spec.IsPassedOver form.now self.now front.now what) }
    {
        match command_name(alloc, &self.variables, front.line, front.words.as_slice()) {
            Ok(name) => passed_as(command_kind(form, name.as_bytes()), name),
            Err(_) => None,
        }
    }

    /// Takes a command.
    #[tactic(auto, unfolding(crate::specs::Progresses::after_command))]
    pub fn take_command(
        &mut self,
        alloc: Global,
        form: &ScriptForm,
        command: &RawCommand,
    ) -> Result<(), SdcFault>
        ensures { Gives Fails (λ _. self.new) result (spec.after_command form.now self.old command.now) }
    {
        let line = command.line;
        let words = command.words.as_slice();
        let name = command_name(alloc, &self.variables, line, words)?;
        match command_kind(form, name.as_bytes()) {
            Some(kind) => self.take_words(
                alloc,
                form,
                kind,
                Head { line, name },
                after_first(words),
            ),
            None => Err(SdcFault::UnknownCommand(line, name)),
        }
    }
}

/// What a command of this kind and name says that is passed over, whose words are not valued.
fn passed_as(kind: Option<CommandKind>, name: Name) -> Option<What>
    ensures { result ≡ spec.passed_as kind name }
{
    match kind {
        Some(CommandKind::Passed) => Some(What::Passed),
        Some(CommandKind::Unjudged) => Some(What::Unjudged(name)),
        _ => None,
    }
}

/// What was read, or else this; want of memory is handed on.
fn what_or(other: What, read: Result<What, SdcFault>) -> Result<What, SdcFault>
    ensures { (expected : Result TheWhat TheFault) → Gives Fails (λ what. what) read expected
        → Gives Fails (λ what. what) result (Ok (spec.what_or other expected)) }
{
    match read {
        Ok(what) => Ok(what),
        Err(SdcFault::Memory) => Err(SdcFault::Memory),
        Err(_) => Ok(other),
    }
}

/// What the words of `current_design` say, on this line after the command's name.
fn scope_by(
    alloc: Global,
    nesting: Nesting,
    vars: &Variables,
    line: u64,
    words: &[Word],
) -> Result<What, SdcFault>
    ensures { Gives Fails (λ what. what) result (spec.scope_by nesting vars.now line words.now) }
{
    let said = said_words(alloc, nesting, vars, line, words)?;
    Ok(take_scope(alloc, said.as_slice())?)
}

/// The words after the first.
fn after_first(words: &[Word]) -> &[Word]
    ensures { result.now ≡ drop 1 words.entry.now }
{
    match words {
        [_, others @ ..] => others,
        [] => words,
    }
}

/// What the words of a command say that sets no variable, and for whose words something may be refused.
fn what_of(
    alloc: Global,
    form: &ScriptForm,
    kind: CommandKind,
    head: Head,
    said: &[Said<'_>],
) -> Result<What, SdcFault>
    ensures { Gives Fails (λ what. what) result (spec.what_of form.now kind head said.now) }
{
    match kind {
        CommandKind::Clock => take_clock(alloc, ClockCommand::Create, head, said),
        CommandKind::Case => take_case(alloc, &head, said),
        CommandKind::Path(path) => take_exception(alloc, is_wide(form), path, head, said),
        CommandKind::Constant(value) => take_constant(alloc, value, &head, said),
        CommandKind::Instance => take_instance(alloc, &head, said),
        CommandKind::Separator => take_separator(alloc, &head, said),
        CommandKind::Generated => take_clock(alloc, ClockCommand::Generate, head, said),
        CommandKind::Set
        | CommandKind::Passed
        | CommandKind::Unjudged
        | CommandKind::Scope
        | CommandKind::Delay(_) => Ok(What::Passed),
    }
}
