//! The script that a text is.
ghost use Rattle.std.specs.Prelude.{◌≡◌, ◌<◌, ◌≤◌, length, IfOk, IfErr, IfSome, IsTrue};
ghost use Rattle.texts.specs.Rules.{Gives};
ghost use Rattle.sdc_words.specs.Commands.{text_of, left_of, command_at, line_at};
ghost use Rattle.sdc_values.specs.Told.{Fails};
ghost use Rattle.sdc_text.specs.Scripts as spec;

use crate::progresses::Progress;
use run_options::ScriptForm;
use script_types::{Script, What};
use sdc_values::SdcFault;
use sdc_words::{Commands, RawCommand, cleaned, original};
use std::alloc::Global;

/// The script that a text is in this form, or the fault that it has. A `Syntax` and a `Deep` are at most the text's length.
#[tactic(auto, unfolding(crate::specs::Scripts::script_of))]
pub fn read_sdc(alloc: Global, text: &[u8], form: &ScriptForm) -> Result<Script, SdcFault>
    ensures value { Gives Fails (λ script. script) result (spec.script_of form.now text.now) }
    ensures within { IfErr result (λ e. spec.IsWithin (length text.now) e) }
{
    let clean = cleaned(alloc, text)?;
    match read_clean(alloc, &clean, form) {
        Ok(progress) => Ok(script(progress)),
        Err(fault) => Err(placed(text, fault)),
    }
}

fn script(progress: Progress) -> Script
    ensures { result.commands ≡ progress.commands }
{
    let Progress { commands, .. } = progress;
    Script { commands }
}

/// A fault in the cleaned text, at its place in the text.
fn placed(text: &[u8], fault: SdcFault) -> SdcFault
    ensures value { result ≡ spec.placed_fault text.now fault }
    ensures within { spec.IsWithin (length text.now) result }
{
    match fault {
        SdcFault::Syntax(place) => SdcFault::Syntax(original(text, place)),
        SdcFault::Deep(place) => SdcFault::Deep(original(text, place)),
        other => other,
    }
}

fn next_raw(alloc: Global, commands: &mut Commands<'_>) -> Result<Option<RawCommand>, SdcFault>
    ensures value { Gives Fails (λ command. (command, left_of commands.new)) result (spec.lifted (command_at (text_of commands.old) (left_of commands.old))) }
    ensures text { text_of commands.new ≡ text_of commands.old }
    ensures shorter { IfOk result (λ command. IfSome command (λ _. length (left_of commands.new) < length (left_of commands.old))) }
{
    Ok(commands.next_command(alloc)?)
}

/// What the next command says, where it is passed over. Where its front can't be read, it is not: the command is read for
/// its fault.
fn passed_over(
    alloc: Global,
    form: &ScriptForm,
    commands: &Commands<'_>,
    progress: &Progress,
) -> Option<What>
    ensures { IfSome result (λ what. spec.PassesNext form.now (command_at (text_of commands.now) (left_of commands.now)) progress.now what) }
{
    match commands.front(alloc) {
        Ok(Some(front)) => progress.passes_over(alloc, form, &front),
        _ => None,
    }
}

/// Takes the next command, which is passed over and says this, and tells whether there was one.
#[tactic(auto, unfolding(crate::specs::Scripts::next_at))]
fn pass_next(
    alloc: Global,
    form: &ScriptForm,
    commands: &mut Commands<'_>,
    progress: &mut Progress,
    what: What,
) -> Result<bool, SdcFault>
    requires { spec.PassesNext form.now (command_at (text_of commands.old) (left_of commands.old)) progress.old what }
    ensures value { Gives Fails (λ more. ((more, progress.new), left_of commands.new)) result
        (spec.next_at form.now (text_of commands.old) progress.old (left_of commands.old)) }
    ensures text { text_of commands.new ≡ text_of commands.old }
    ensures shorter { IfOk result (λ more. IsTrue more → length (left_of commands.new) < length (left_of commands.old)) }
{
    match pass_raw(alloc, commands)? {
        Some(line) => {
            progress.push(line, what)?;
            Ok(true)
        }
        None => Ok(false),
    }
}

fn pass_raw(alloc: Global, commands: &mut Commands<'_>) -> Result<Option<u64>, SdcFault>
    ensures value { Gives Fails (λ line. (line, left_of commands.new)) result (spec.lifted (line_at (text_of commands.old) (left_of commands.old))) }
    ensures text { text_of commands.new ≡ text_of commands.old }
    ensures shorter { IfOk result (λ line. IfSome line (λ _. length (left_of commands.new) < length (left_of commands.old))) }
{
    Ok(commands.pass_command(alloc)?)
}

/// Takes the next command, and tells whether there was one. Of one that is passed over no word is kept.
#[tactic(auto, unfolding(crate::specs::Scripts::next_at))]
fn take_next(
    alloc: Global,
    form: &ScriptForm,
    commands: &mut Commands<'_>,
    progress: &mut Progress,
) -> Result<bool, SdcFault>
    ensures value { Gives Fails (λ more. ((more, progress.new), left_of commands.new)) result
        (spec.next_at form.now (text_of commands.old) progress.old (left_of commands.old)) }
    ensures text { text_of commands.new ≡ text_of commands.old }
    ensures shorter { IfOk result (λ more. IsTrue more → length (left_of commands.new) < length (left_of commands.old)) }
{
    if let Some(what) = passed_over(alloc, form, commands, progress) {
        return pass_next(alloc, form, commands, progress, what);
    }
    match next_raw(alloc, commands)? {
        Some(command) => {
            progress.take_command(alloc, form, &command)?;
            Ok(true)
        }
        None => Ok(false),
    }
}

/// Takes all commands of a text without carriage returns at its lines' ends.
fn read_clean(alloc: Global, text: &[u8], form: &ScriptForm) -> Result<Progress, SdcFault>
    ensures { Gives Fails (λ progress. progress) result (spec.progress_of form.now text.now) }
{
    let mut commands = Commands::new(text);
    let mut progress = Progress::new(alloc);
    'commands: loop {
        let more = take_next(alloc, form, &mut commands, &mut progress)?;
        if !more {
            return Ok(progress);
        }
    }
}
