//! Case analyses and variables.
ghost use Rattle.std.specs.Prelude.{◌≡◌};
ghost use Rattle.texts.specs.Rules.{Gives};
ghost use Rattle.sdc_values.specs.Told.{Fails};
ghost use Rattle.sdc_text.specs.Cases as spec;

use crate::heads::{Head, option_of};
use crate::options::is;
use script_types::What;
use sdc_values::{Said, SdcFault, Value, objects_of};
use sdcv_base::Name;
use std::alloc::Global;

/// The two words of a command that takes two.
fn two_words<'a, 'v>(
    alloc: Global,
    head: &Head,
    words: &'a [Said<'v>],
) -> Result<(&'a Said<'v>, &'a Said<'v>), SdcFault>
    ensures { Gives Fails (λ w. (w.0.now, w.1.now)) result (spec.two_words head.now words.entry.now) }
{
    match words {
        [] | [_] => Err(head.lacking(alloc)?),
        [first, second] => Ok((first, second)),
        [_, _, third, ..] => Err(head.surplus(alloc, third.value.get())?),
    }
}

#[tactic(auto, unfolding(crate::specs::Cases::case_bit))]
fn case_bit(text: &[u8]) -> Option<bool>
    ensures { result ≡ spec.case_bit text.now }
{
    if is(text, "0") {
        Some(false)
    } else if is(text, "zero") {
        Some(false)
    } else if is(text, "1") {
        Some(true)
    } else if is(text, "one") {
        Some(true)
    } else {
        None
    }
}

fn case_value(alloc: Global, head: &Head, value: &Value) -> Result<bool, SdcFault>
    ensures { Gives Fails (λ bit. bit) result (spec.case_value head.now value.now) }
{
    let text = head.wanted_text(alloc, value)?;
    match case_bit(text.as_bytes()) {
        Some(bit) => Ok(bit),
        None => Err(head.bad_number(alloc, text)?),
    }
}

fn refuse_option(alloc: Global, head: &Head, word: &Said<'_>) -> Result<(), SdcFault>
    ensures { Gives Fails (λ _. word.now) result (spec.no_option head.now word.now) }
{
    match option_of(word.value.get()) {
        Some(name) => Err(head.bad_option(alloc, name)?),
        None => Ok(()),
    }
}

/// What the words of `set_case_analysis` say, after the command's name.
#[tactic(auto, unfolding(crate::specs::Cases::case_of))]
pub fn take_case(alloc: Global, head: &Head, words: &[Said<'_>]) -> Result<What, SdcFault>
    ensures { Gives Fails (λ what. what) result (spec.case_of head.now words.now) }
{
    let (value, objects) = two_words(alloc, head, words)?;
    let value = case_value(alloc, head, value.value.get())?;
    refuse_option(alloc, head, objects)?;
    let objects = objects_of(alloc, objects)?;
    Ok(What::Case { value, objects })
}

/// The one word of a command that takes one.
pub fn one_word<'a, 'v>(
    alloc: Global,
    head: &Head,
    words: &'a [Said<'v>],
) -> Result<&'a Said<'v>, SdcFault>
    ensures { Gives Fails (λ w. w.now) result (spec.one_word head.now words.entry.now) }
{
    match words {
        [] => Err(head.lacking(alloc)?),
        [word] => Ok(word),
        [_, second, ..] => Err(head.surplus(alloc, second.value.get())?),
    }
}

/// What the words of `set_logic_zero` and `set_logic_one` say, after the command's name.
#[tactic(auto, unfolding(crate::specs::Cases::constant_of))]
pub fn take_constant(
    alloc: Global,
    value: bool,
    head: &Head,
    words: &[Said<'_>],
) -> Result<What, SdcFault>
    ensures { Gives Fails (λ what. what) result (spec.constant_of value head.now words.now) }
{
    let objects = one_word(alloc, head, words)?;
    refuse_option(alloc, head, objects)?;
    let objects = objects_of(alloc, objects)?;
    Ok(What::Case { value, objects })
}

/// The variable that the words of `set` set after the command's name, and its value.
#[tactic(auto, unfolding(crate::specs::Cases::set_of))]
pub fn take_set(alloc: Global, head: &Head, words: &[Said<'_>]) -> Result<(Name, Value), SdcFault>
    ensures { Gives Fails (λ v. v) result (spec.set_of head.now words.now) }
{
    let (name, value) = two_words(alloc, head, words)?;
    let name = head.wanted_text(alloc, name.value.get())?;
    Ok((name.copy(alloc)?, value.value.get().copy(alloc)?))
}
