//! Clocks.
ghost use Rattle.std.specs.Prelude.{◌≡◌, OnOk};
ghost use Rattle.texts.specs.Rules.{Gives};
ghost use Rattle.sdc_values.specs.Told.{Fails};
ghost use Rattle.sdc_text.specs.Clocks as spec;

use crate::gathers::{Gather, take_all};
use crate::heads::{Head, option_of};
use crate::options::{ClockCommand, ClockOption, clock_option};
use script_types::{Object, What};
use sdc_values::{Said, SdcFault, objects_of};
use sdcv_base::{Name, Seq};
use std::alloc::{AllocError, Global};

/// What the words of a command that makes a clock have said so far.
#[derive(Drop)]
pub struct ClockReading {
    pub command: ClockCommand,
    pub head: Head,
    /// The option whose word comes next, and its own word.
    pub awaited: Option<(ClockOption, Name)>,
    pub name: Option<Name>,
    pub source: Option<Seq<Object>>,
}

impl ClockReading {
    #[tactic(auto, unfolding(crate::specs::Clocks::begun))]
    fn begin(&mut self, alloc: Global, name: &Name, option: ClockOption) -> Result<(), AllocError>
        ensures { OnOk result (self.new ≡ spec.begun self.old name.now option) }
    {
        if option != ClockOption::Added {
            self.awaited = Some((option, name.copy(alloc)?));
        }
        Ok(())
    }

    #[tactic(auto, unfolding(crate::specs::Clocks::given))]
    fn give(&mut self, alloc: Global, option: ClockOption, word: &Said<'_>) -> Result<(), SdcFault>
        ensures { Gives Fails (λ _. self.new) result (spec.given self.old option word.now) }
    {
        match option {
            ClockOption::Called => {
                let text = self.head.wanted_text(alloc, word.value.get())?;
                self.name = Some(text.copy(alloc)?);
            }
            ClockOption::Master => {
                let _objects = objects_of(alloc, word)?;
            }
            ClockOption::Timing | ClockOption::Added => {}
        }
        Ok(())
    }

    #[tactic(auto, unfolding(crate::specs::Clocks::with_source))]
    fn take_source(&mut self, alloc: Global, word: &Said<'_>) -> Result<(), SdcFault>
        ensures { Gives Fails (λ _. self.new) result (spec.with_source self.old word.now) }
    {
        if self.source.is_some() {
            return Err(self.head.surplus(alloc, word.value.get())?);
        }
        self.source = Some(objects_of(alloc, word)?);
        Ok(())
    }

    #[tactic(auto, unfolding(crate::specs::Clocks::with_word))]
    fn take_word(&mut self, alloc: Global, word: &Said<'_>) -> Result<(), SdcFault>
        ensures { Gives Fails (λ _. self.new) result (spec.with_word self.old word.now) }
    {
        let Some(name) = option_of(word.value.get()) else {
            return self.take_source(alloc, word);
        };
        match clock_option(self.command, name.as_bytes()) {
            Some(option) => Ok(self.begin(alloc, name, option)?),
            None => Err(self.head.bad_option(alloc, name)?),
        }
    }
}

impl Gather for ClockReading {
    ghost adds = { spec.adds_word };

    #[tactic(auto, unfolding(crate::specs::Clocks::adds_word))]
    fn add(&mut self, alloc: Global, word: &Said<'_>) -> Result<(), SdcFault> {
        match self.awaited.take() {
            Some((option, _)) => self.give(alloc, option, word),
            None => self.take_word(alloc, word),
        }
    }
}

#[tactic(auto, unfolding(crate::specs::Clocks::generated))]
fn generated(
    alloc: Global,
    head: &Head,
    name: Option<Name>,
    source: Option<Seq<Object>>,
) -> Result<What, SdcFault>
    ensures { Gives Fails (λ what. what) result (spec.generated head.now name source) }
{
    match (name, source) {
        (Some(name), Some(objects)) => Ok(What::Generated { name, objects }),
        _ => Err(head.lacking(alloc)?),
    }
}

#[tactic(auto, unfolding(crate::specs::Clocks::made))]
fn concluded(alloc: Global, reading: ClockReading) -> Result<What, SdcFault>
    ensures { Gives Fails (λ what. what) result (spec.concluded reading) }
{
    let ClockReading {
        command,
        head,
        awaited,
        name,
        source,
    } = reading;
    if let Some((_, word)) = awaited {
        return Err(head.bad_option(alloc, &word)?);
    }
    match command {
        ClockCommand::Create => {
            let source = source.unwrap_or(Seq::new(alloc));
            Ok(What::Clock { name, source })
        }
        ClockCommand::Generate => generated(alloc, &head, name, source),
    }
}

/// What the words of a command that makes a clock say, after its name.
pub fn take_clock(
    alloc: Global,
    command: ClockCommand,
    head: Head,
    words: &[Said<'_>],
) -> Result<What, SdcFault>
    ensures { Gives Fails (λ what. what) result (spec.clock_of command head words.now) }
{
    let mut reading = ClockReading {
        command,
        head,
        awaited: None,
        name: None,
        source: None,
    };
    take_all(alloc, words, &mut reading)?;
    concluded(alloc, reading)
}
