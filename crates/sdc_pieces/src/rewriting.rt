//! A text with other commands in the places of its own.
ghost use Rattle.std.specs.Prelude.{◌≡◌, ◌≤◌, ◌<◌, ◌-◌, length, take, drop, IfOk, IfSome};
ghost use Rattle.std.specs.Option.{option_map};
ghost use Rattle.sdc_words.specs.Commands.{text_of, left_of};
ghost use Rattle.sdc_pieces.specs.Pieces as spec;

use sdc_words::{Commands, WordFault};
use sdcv_base::Name;
use std::alloc::{AllocError, Global};

/// The text, which has no carriage return before a newline, with these bodies in the places of those of its commands, in their
/// order. Where a body is `None` the command's bytes stay, and so does all that stands between the commands. From the first
/// command on that cannot be read all bytes stay.
pub fn rewritten(alloc: Global, text: &[u8], bodies: &[Option<Name>]) -> Result<Vec<u8>, AllocError>
    ensures { IfOk result (λ new. new.items ≡ spec.rewritten text.now bodies.now) }
{
    let mut new = Vec::new(alloc);
    let mut commands = Commands::new(text);
    for place in 0..text.len() {
        let begin = commands.at_command();
        let Some(next) = after_command(alloc, &begin)? else {
            break;
        };
        let old = between(text, begin.left(), next.left());
        new.extend_from_slice(between(text, commands.left(), begin.left()))?;
        new.extend_from_slice(body_at(old, bodies, place))?;
        commands = next;
    }
    new.extend_from_slice(between(text, commands.left(), 0))?;
    Ok(new)
}

/// What follows the next command of a text; `None` at the text's end, and where no command is read.
fn after_command<'a>(
    alloc: Global,
    commands: &Commands<'a>,
) -> Result<Option<Commands<'a>>, AllocError>
    ensures value { IfOk result (λ next. option_map left_of next ≡ spec.after_command (text_of commands.now) (left_of commands.now)) }
    ensures text { IfOk result (λ next. IfSome next (λ n. text_of n ≡ text_of commands.now)) }
    ensures shorter { IfOk result (λ next. IfSome next (λ n. length (left_of n) < length (left_of commands.now))) }
{
    let mut next = *commands;
    match next.pass_command(alloc) {
        Ok(Some(_line)) => Ok(Some(next)),
        Ok(None) | Err(WordFault::Syntax(_)) | Err(WordFault::Deep(_)) => Ok(None),
        Err(WordFault::Memory) => Err(AllocError),
    }
}

/// The bytes of a text from where so many are left to where so many are.
fn between(text: &[u8], from: usize, to: usize) -> &[u8]
    requires within { from ≤ length text.now }
    requires later { to ≤ from }
    ensures { result.now ≡ take (from - to) (drop (length text.now - from) text.now) }
{
    let end = text.len();
    &text[end - from..end - to]
}

/// The body at a place, or the command's bytes where none stands there.
fn body_at<'a>(old: &'a [u8], bodies: &'a [Option<Name>], place: usize) -> &'a [u8]
    ensures { result.now ≡ spec.body_at old.now bodies.now place }
{
    match bodies.get(place) {
        Some(Some(new)) => new.as_bytes(),
        Some(None) | None => old,
    }
}
