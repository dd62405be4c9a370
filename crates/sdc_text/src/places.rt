//! The commands that say where names are looked up.
ghost use Rattle.std.specs.Prelude.{◌≡◌, IfOk};
ghost use Rattle.texts.specs.Rules.{Gives};
ghost use Rattle.sdc_values.specs.Told.{Fails};
ghost use Rattle.sdc_text.specs.Places as spec;

use crate::cases::one_word;
use crate::heads::Head;
use crate::options::is;
use script_types::What;
use sdc_values::{Said, SdcFault, Value};
use std::alloc::{AllocError, Global};

fn scope_named(alloc: Global, value: &Value) -> Result<What, AllocError>
    ensures { IfOk result (λ what. what ≡ spec.scope_named value.now) }
{
    match value {
        Value::Text(text) => Ok(What::Scope(text.copy(alloc)?)),
        Value::Objects(_) => Ok(What::Passed),
    }
}

/// What the words of `current_design` say, after the command's name.
pub fn take_scope(alloc: Global, words: &[Said<'_>]) -> Result<What, AllocError>
    ensures { IfOk result (λ what. what ≡ spec.scope_of words.now) }
{
    match words {
        [word] => scope_named(alloc, word.value.get()),
        [] | [_, _, ..] => Ok(What::Passed),
    }
}

/// What the words of `current_instance` say, after the command's name.
pub fn take_instance(alloc: Global, head: &Head, words: &[Said<'_>]) -> Result<What, SdcFault>
    ensures { Gives Fails (λ what. what) result (spec.instance_of head.now words.now) }
{
    match words {
        [] => Ok(What::Passed),
        [word, ..] => Err(head.surplus(alloc, word.value.get())?),
    }
}

fn is_slash(value: &Value) -> bool
    ensures { result ≡ spec.is_slash value.now }
{
    match value {
        Value::Text(text) => is(text.as_bytes(), "/"),
        Value::Objects(_) => false,
    }
}

/// What the words of `set_hierarchy_separator` say, after the command's name.
#[tactic(auto, unfolding(crate::specs::Places::separator_of))]
pub fn take_separator(alloc: Global, head: &Head, words: &[Said<'_>]) -> Result<What, SdcFault>
    ensures { Gives Fails (λ what. what) result (spec.separator_of head.now words.now) }
{
    let value = one_word(alloc, head, words)?.value.get();
    if is_slash(value) {
        return Ok(What::Passed);
    }
    Err(head.surplus(alloc, value)?)
}
