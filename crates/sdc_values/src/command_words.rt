//! What the words of a command say.
ghost use Rattle.std.specs.Prelude.{◌≡◌, ◌<◌, ◌≤◌, length, drop, IfOk};
ghost use Rattle.texts.specs.Rules.{Gives};
ghost use Rattle.sdc_values.specs.Told.{Fails};
ghost use Rattle.sdc_values.specs.Lines as spec;

use crate::loans::Loan;
use crate::nested::nested;
use crate::nested_kinds::Nesting;
use crate::values::{Said, Value};
use crate::variables::Variables;
use crate::word_texts::{said_text, text_within, value};
use script_types::SdcFault;
use sdc_words::Word;
use sdcv_base::{Name, Seq};
use std::alloc::Global;

/// What follows the first `count` words.
pub fn words_after(words: &[Word], count: usize) -> &[Word]
    requires { count ≤ length words.now }
    ensures { result.now ≡ drop count words.now }
{
    &words[count..]
}

/// Adds what the first word says, and tells how many words that took.
#[tactic(auto, unfolding(crate::specs::Lines::adds_word))]
fn add_word<'a>(
    alloc: Global,
    nesting: Nesting,
    vars: &'a Variables,
    line: u64,
    words: &[Word],
    said: &mut Seq<Said<'a>>,
) -> Result<usize, SdcFault>
    requires { 0 < length words.now }
    ensures value { Gives Fails (λ n. (said.new, drop n words.now)) result (spec.adds_word nesting vars.entry.now line said.old words.now) }
    ensures some { IfOk result (λ n. 0 < n) }
    ensures within { IfOk result (λ n. n ≤ length words.now) }
{
    match &words[0] {
        Word::Text { offset, pieces } => {
            said.push(said_text(alloc, vars, line, *offset, pieces)?)?;
            Ok(1)
        }
        Word::Opens(offset) => {
            let (objects, count) = nested(alloc, nesting, vars, line, *offset, &words[1..])?;
            said.push(Said {
                offset: *offset,
                value: Loan::own(Value::Objects(objects)),
            })?;
            Ok(count + 1)
        }
        Word::Closes => Ok(1),
    }
}

/// What the words of a command on this line say, one after the other.
pub fn said_words<'a>(
    alloc: Global,
    nesting: Nesting,
    vars: &'a Variables,
    line: u64,
    words: &[Word],
) -> Result<Seq<Said<'a>>, SdcFault>
    ensures { Gives Fails (λ said. said) result (spec.said_words nesting vars.entry.now line words.now) }
{
    let mut said = Seq::new(alloc);
    let mut place = 0;
    'words: while place < words.len() {
        let taken = add_word(
            alloc,
            nesting,
            vars,
            line,
            words_after(words, place),
            &mut said,
        )?;
        place += taken;
    }
    Ok(said)
}

/// The name that its first word gives a command. `Syntax` comes at that word where it is no text.
#[tactic(auto, unfolding(crate::specs::Lines::command_name))]
pub fn command_name(
    alloc: Global,
    vars: &Variables,
    line: u64,
    words: &[Word],
) -> Result<Name, SdcFault>
    ensures { Gives Fails (λ name. name) result (spec.command_name vars.now line words.now) }
{
    match words.first() {
        Some(Word::Text { offset, pieces }) => {
            let value = value(alloc, vars, line, *offset, pieces.as_slice())?;
            Ok(text_within(*offset, value.get())?.copy(alloc)?)
        }
        Some(Word::Opens(offset)) => Err(SdcFault::Syntax(*offset)),
        Some(Word::Closes) | None => Ok(Name::from_vec(Vec::new(alloc))),
    }
}
