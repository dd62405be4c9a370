//! The first word of a command, and the refusals that name the command or one of its words.
ghost use Rattle.std.specs.Prelude.{◌≡◌, IfOk};
ghost use Rattle.std.specs.Option.{option_map};
ghost use Rattle.texts.specs.Rules.{Gives};
ghost use Rattle.sdc_values.specs.Told.{Fails};
ghost use Rattle.sdc_text.specs.Heads as spec;

use sdc_values::{SdcFault, Value, is_option};
use sdcv_base::Name;
use std::alloc::{AllocError, Global};

/// The word that names a command, and the line of its first byte, from 1.
#[derive(Drop)]
pub struct Head {
    pub line: u64,
    pub name: Name,
}

impl Head {
    /// Refuses a word.
    pub fn bad_option(&self, alloc: Global, word: &Name) -> Result<SdcFault, AllocError>
        ensures { IfOk result (λ e. e ≡ spec.bad_option self.now word.now) }
    {
        Ok(SdcFault::BadOption(self.line, word.copy(alloc)?))
    }

    /// Refuses a word that is no number as one is wanted.
    pub fn bad_number(&self, alloc: Global, word: &Name) -> Result<SdcFault, AllocError>
        ensures { IfOk result (λ e. e ≡ spec.bad_number self.now word.now) }
    {
        Ok(SdcFault::BadNumber(self.line, word.copy(alloc)?))
    }

    /// Refuses the command for what it lacks.
    pub fn lacking(&self, alloc: Global) -> Result<SdcFault, AllocError>
        ensures { IfOk result (λ e. e ≡ spec.lacking self.now) }
    {
        self.bad_option(alloc, &self.name)
    }

    /// Refuses a word too many.
    pub fn surplus(&self, alloc: Global, value: &Value) -> Result<SdcFault, AllocError>
        ensures { IfOk result (λ e. e ≡ spec.surplus self.now value.now) }
    {
        match value {
            Value::Text(text) => self.bad_option(alloc, text),
            Value::Objects(_) => self.lacking(alloc),
        }
    }

    /// The text of a word that has to be one.
    pub fn wanted_text<'a>(&self, alloc: Global, value: &'a Value) -> Result<&'a Name, SdcFault>
        ensures { Gives Fails (λ t. t.now) result (spec.wanted_text self.now value.entry.now) }
    {
        match value {
            Value::Text(text) => Ok(text),
            Value::Objects(_) => Err(self.lacking(alloc)?),
        }
    }
}

/// The option that a word is: its text of `-` with no digit after it.
pub fn option_of(value: &Value) -> Option<&Name>
    ensures { option_map (λ t. t.now) result ≡ spec.option_of value.entry.now }
{
    match value {
        Value::Text(text) if is_option(text.as_bytes()) => Some(text),
        _ => None,
    }
}
